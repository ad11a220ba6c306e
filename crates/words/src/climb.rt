//! Climbing the staircase: what stands for each place of the left word is found from right to left, from what each letter
//! says of the end parts that were reached.

ghost use Rattle.std.specs.Prelude.{◌≡◌, ◌-◌, ◌+◌, ◌<◌, ◌≤◌, min, length, fold};
ghost use Rattle.std.proofs.Math.Decide.{ℕ_discrete};
ghost use Rattle.words.specs.Degrees.{Degree};
ghost use Rattle.words.specs.Places.{depth as depth_of};
ghost use Rattle.words.specs.Reading.{end_part};
ghost use Rattle.words.specs.RowSteps.{cap, Partners};
ghost use Rattle.words.specs.Stairs.{Stand, PartnerOf, PartnerFrom, DegreeOf};
ghost use Rattle.words.specs.Steps.{rights};

use crate::stairs::{Pair, Stair};
use std::marker::Model;

/// Two words of ranks that are read from their ends to their starts, with what each letter says of the end parts that
/// were reached.
#[derive(Drop)]
pub(crate) struct Climb<'a> {
    pair: Pair<'a>,
    says: &'a mut [u32],
}

impl<'a> Model for Climb<'a> {
    ghost use Rattle.words.specs.Stairs.{Ends};

    ghost Value = { Ends };

    ghost use Rattle.words.specs.Met.{Met};

    ghost view = { λ c. c.pair };

    ghost invariant = { Met };
}

impl<'a> Climb<'a> {
    /// Begins at the ends of both words, where no letter says anything.
    pub(crate) fn start(pair: Pair<'a>, says: &'a mut [u32]) -> Climb<'a>
        requires left_end { pair.left.at ≡ length pair.left.word }
        requires right_end { pair.right.at ≡ length pair.right.word }
        requires letters { length says.old ≡ pair.left.letters }
        ensures { result ≡ pair.entry }
    {
        says.fill(pair.cap());
        Climb { pair, says }
    }

    /// Keeps what stands for the place of the left word that was reached, and puts the next letter of that word in front
    /// of its end part.
    fn put_left(&mut self, stair: Stair)
        requires stair { Stand self.old.left.word self.old.right.word self.old.left.at stair.level stair.stand }
        requires more { 0 < self.old.left.at }
        ensures { self.new ≡ record self.old { left = record self.old.left { at = self.old.left.at - 1 } } }
    {
        let letter = self.pair.put_left(stair);
        self.says[letter] = self.pair.say(letter);
    }

    /// Puts the next letter of the right word in front of its end part.
    fn put_right(&mut self)
        requires more { 0 < self.old.right.at }
        ensures { self.new ≡ record self.old { right = record self.old.right { at = self.old.right.at - 1 } } }
    {
        let letter = self.pair.put_right();
        self.says[letter] = self.pair.say(letter);
    }

    /// Puts letters of the right word in front of its end part, down to the place `to`.
    fn walk_right(&mut self, to: usize)
        requires before { to ≤ self.old.right.at }
        ensures { self.new ≡ record self.old { right = record self.old.right { at = to } } }
    {
        for _ in to..self.pair.right_at() {
            self.put_right();
        }
    }

    /// The degree of the end parts that were reached, counted up to the cap: one more than the least that a letter says.
    fn capped_degree(&self) -> u32
        ensures { Degree (cap self.now.right.word) result (end_part self.now.left) (end_part self.now.right) }
    {
        let cap = self.pair.cap();
        (least(self.says, cap) + 1).min(cap)
    }

    /// The degree of the end parts that were reached, if they differ.
    pub(crate) fn degree(&self) -> Option<u32>
        ensures { DegreeOf (cap self.now.right.word) (end_part self.now.left) (end_part self.now.right) result }
    {
        let degree = self.capped_degree();
        (degree < self.pair.cap()).then_some(degree)
    }

    /// Finds what stands for the place of the left word that was reached: its partner, if the two agree above its depth,
    /// otherwise what stands for the next place.
    fn find_stair(&mut self, depth: u32, partner: Option<u32>, next: Stair) -> Stair
        requires inside { self.old.left.at < length self.old.left.word }
        requires depth { depth ≡ depth_of ℕ_discrete self.old.left.word self.old.left.at }
        requires partner { PartnerOf self.old.left.word self.old.right.word self.old.left.at partner }
        requires last { PartnerFrom self.old.left.word self.old.right.word (self.old.left.at + 1) self.old.right.at }
        requires next { Stand self.old.left.word self.old.right.word (self.old.left.at + 1) next.level next.stand }
        ensures moved { self.new ≡ record self.old { right = record self.old.right { at = self.new.right.at } } }
        ensures last { PartnerFrom self.old.left.word self.old.right.word self.old.left.at self.new.right.at }
        ensures stair { Stand self.old.left.word self.old.right.word self.old.left.at result.level result.stand }
    {
        let Some(stand) = partner else {
            return next.lowered(depth);
        };
        self.walk_right(stand as usize);
        let level = self.capped_degree();
        if level > depth {
            Stair { level, stand }
        } else {
            next.lowered(depth)
        }
    }

    /// Reads both words to their starts, and keeps what stands for each place of the left word behind its first one.
    pub(crate) fn climb(&mut self, depths: &[u32], partners: &[u32])
        requires left_end { self.old.left.at ≡ length self.old.left.word }
        requires right_end { self.old.right.at ≡ length self.old.right.word }
        requires depths { depths.now ≡ rights ℕ_discrete self.old.left.word }
        requires partner_room { length self.old.left.word < length partners.now }
        requires partners { Partners self.old.left.word self.old.right.word partners.now }
        ensures { self.new ≡ record { left = record self.old.left { at = 0 }; right = record self.old.right { at = 0 } } }
    {
        let mut stair = Stair {
            level: self.pair.cap(),
            stand: self.pair.right_at() as u32,
        };
        for i in (0..depths.len()).rev() {
            self.put_left(stair);
            stair = self.find_stair(depths[i], partners[i].checked_sub(1), stair);
        }
        self.walk_right(0);
    }

    /// The two words with their stairs.
    pub(crate) fn into_pair(self) -> Pair<'a>
        ensures { result ≡ self.entry }
    {
        let Climb { pair, says: _ } = self;
        pair
    }
}

/// The least of the numbers and `most`.
fn least(numbers: &[u32], most: u32) -> u32
    ensures { result ≡ fold min most numbers.now }
{
    numbers
        .iter()
        .fold(most, |least, number| least.min(*number))
}
