//! The staircase: for each place of the left word the end part of the right word that stands for it, and the level up
//! to which the two agree. From it follows up to which level any two end parts of the two words agree.

ghost use Rattle.std.specs.Prelude.{◌≡◌, ◌+◌, ◌-◌, ◌*◌, ◌<◌, ◌≤◌, min, [], ◌∷◌, length, Decides};
ghost use Rattle.std.proofs.Math.Decide.{ℕ_discrete};
ghost use Rattle.words.specs.Words.{Sub};
ghost use Rattle.words.specs.Degrees.{Follow, after};
ghost use Rattle.words.specs.Reading.{end_part};
ghost use Rattle.words.specs.RowSteps.{cap};
ghost use Rattle.words.specs.Stairs.{Stand};
ghost use Rattle.words.specs.Steps.{Below};

use crate::reading::Reading;
use crate::stretches::Stretches;
use std::marker::Model;

/// What stands for an end part of the left word.
#[derive(Clone, Copy)]
pub(crate) struct Stair {
    /// Up to which level the two agree.
    pub level: u32,
    /// Where the end part of the right word begins.
    pub stand: u32,
}

impl Stair {
    /// What stands for the end part with a letter of this depth in front, if no partner does: the same, up to the depth.
    pub(crate) fn lowered(self, depth: u32) -> Stair
        ensures level { result.level ≡ min depth self.level }
        ensures stand { result.stand ≡ self.stand }
    {
        Stair {
            level: depth.min(self.level),
            stand: self.stand,
        }
    }
}

/// Two words of ranks with their end parts that were reached, and what stands for the places of the left word behind
/// the one that was reached.
#[derive(Drop)]
pub(crate) struct Pair<'a> {
    left: Reading<'a>,
    right: Reading<'a>,
    /// The degrees inside the right word.
    stretches: Stretches<'a>,
    /// The levels of the stairs and their stands, for each place of the left word: two slices, since scratch is lent as
    /// 32-bit numbers.
    levels: &'a mut [u32],
    stands: &'a mut [u32],
}

impl<'a> Model for Pair<'a> {
    ghost use Rattle.words.specs.Stairs.{Ends};

    ghost Value = { Ends };

    ghost use Rattle.words.specs.Ready.{Ready};

    ghost view = { λ p. record { left = p.left; right = p.right } };

    ghost invariant = { Ready };
}

impl<'a> Pair<'a> {
    /// Stands at the ends of both words, the right one with its stretches.
    pub(crate) fn start(
        left: &'a [u32],
        stretches: Stretches<'a>,
        letters: usize,
        memory: &'a mut [u32],
    ) -> Pair<'a>
        requires few { length left.now ≤ 4096 }
        requires shorter { length stretches ≤ length left.now }
        requires few_letters { letters ≤ 8192 }
        requires left_letters { Below letters left.now }
        requires right_letters { Below letters stretches }
        requires room { 3 * length left.now + length stretches + 2 * letters + 2 ≤ length memory.old }
        ensures left { result.left ≡ record { word = left.entry.now; at = length left.entry.now; letters = letters } }
        ensures right { result.right ≡ record { word = stretches.entry; at = length stretches.entry; letters = letters } }
    {
        let right = stretches.word();
        let (levels, rest) = memory.split_at_mut(left.len() + 1);
        let (stands, rest) = rest.split_at_mut(left.len() + 1);
        let (left_heads, rest) = rest.split_at_mut(letters);
        let (right_heads, rest) = rest.split_at_mut(letters);
        let (left_links, right_links) = rest.split_at_mut(left.len());
        Pair {
            left: Reading::start(left, left_heads, left_links),
            right: Reading::start(right, right_heads, right_links),
            stretches,
            levels,
            stands,
        }
    }

    /// Up to which level the degrees are counted: more letters than the right word has, so no row has as many.
    pub(crate) fn cap(&self) -> u32
        ensures cap { result ≡ cap self.now.right.word }
        ensures few { result ≤ 4098 }
    {
        self.stretches.cap()
    }

    /// How many letters there are.
    pub(crate) fn letters(&self) -> usize
        ensures letters { result ≡ self.now.left.letters }
        ensures few { result ≤ 8192 }
        ensures left { Below result self.now.left.word }
        ensures right { Below result self.now.right.word }
    {
        self.left.letters()
    }

    /// Where the end part of the right word begins.
    pub(crate) fn right_at(&self) -> usize
        ensures { result ≡ self.now.right.at }
    {
        self.right.at()
    }

    /// Whether the end part of the left word has a letter.
    pub(crate) fn left_has(&self, letter: usize) -> bool
        requires { letter < self.now.left.letters }
        ensures { Decides result (Sub (letter ∷ []) (end_part self.now.left)) }
    {
        self.left.behind(letter).is_some()
    }

    /// What a letter says of the end parts that were reached.
    pub(crate) fn say(&self, letter: usize) -> u32
        requires { letter < self.now.left.letters }
        ensures { Follow ℕ_discrete (cap self.now.right.word) letter (end_part self.now.left) (end_part self.now.right) result }
    {
        match (self.left.behind(letter), self.right.behind(letter)) {
            (None, None) => self.cap(),
            (Some(left), Some(right)) => {
                let stand = self.stands[left] as usize;
                self.levels[left].min(self.stretches.between(stand, right))
            }
            (Some(_), None) | (None, Some(_)) => 0,
        }
    }

    /// Keeps what stands for the place of the left word that was reached, and puts the next letter, which is given, in
    /// front of the end part of that word.
    pub(crate) fn put_left(&mut self, stair: Stair) -> usize
        requires stair { Stand self.old.left.word self.old.right.word self.old.left.at stair.level stair.stand }
        requires more { 0 < self.old.left.at }
        ensures moved { self.new ≡ record self.old { left = record self.old.left { at = self.old.left.at - 1 } } }
        ensures letter { result < self.old.left.letters }
        ensures front { end_part self.new.left ≡ result ∷ end_part self.old.left }
    {
        let place = self.left.at();
        self.levels[place] = stair.level;
        self.stands[place] = stair.stand;
        self.left.put_front()
    }

    /// Puts the next letter of the right word, which is given, in front of its end part.
    pub(crate) fn put_right(&mut self) -> usize
        requires more { 0 < self.old.right.at }
        ensures moved { self.new ≡ record self.old { right = record self.old.right { at = self.old.right.at - 1 } } }
        ensures letter { result < self.old.left.letters }
        ensures front { end_part self.new.right ≡ result ∷ end_part self.old.right }
    {
        self.right.put_front()
    }

    /// Goes on behind the first occurrence of a letter in both words.
    pub(crate) fn go_behind(&mut self, letter: usize)
        requires letter { letter < self.old.left.letters }
        requires left { Sub (letter ∷ []) (end_part self.old.left) }
        requires right { Sub (letter ∷ []) (end_part self.old.right) }
        ensures left_word { self.new.left.word ≡ self.old.left.word }
        ensures right_word { self.new.right.word ≡ self.old.right.word }
        ensures left { end_part self.new.left ≡ after ℕ_discrete letter (end_part self.old.left) }
        ensures right { end_part self.new.right ≡ after ℕ_discrete letter (end_part self.old.right) }
    {
        self.left.go_behind(letter);
        self.right.go_behind(letter);
    }
}
