//! Reading a word of ranks from its end to its start and back: which letters the end part that was reached has, and
//! where each of them stands first.

ghost use Rattle.std.specs.Prelude.{◌≡◌, ◌-◌, ◌<◌, ◌≤◌, [], ◌∷◌, length};
ghost use Rattle.std.proofs.Math.Decide.{ℕ_discrete};
ghost use Rattle.words.specs.Words.{Sub};
ghost use Rattle.words.specs.Degrees.{after};
ghost use Rattle.words.specs.Reading.{PlaceBehind, end_part};
ghost use Rattle.words.specs.Steps.{Below};

use std::marker::Model;

/// A word of ranks with the end part of it that was reached.
#[derive(Drop)]
pub(crate) struct Reading<'a> {
    word: &'a [u32],
    /// Where the end part begins.
    at: usize,
    /// For each letter the place behind its first occurrence in the end part, or 0 if it does not occur: scratch is lent
    /// as numbers.
    heads: &'a mut [u32],
    /// For each place of the end part what was known of its letter before it was reached.
    links: &'a mut [u32],
}

impl<'a> Model for Reading<'a> {
    ghost use Rattle.std.specs.Prelude.{length};
    ghost use Rattle.words.specs.Reading.{Reached};

    ghost Value = { Reached };

    ghost use Rattle.words.specs.Reads.{Reads};

    ghost view = { λ r. record { word = r.word.now; at = r.at; letters = length r.heads.now } };

    ghost invariant = { Reads };
}

impl<'a> Reading<'a> {
    /// Stands at the end of a word, where no letter occurs any more.
    pub(crate) fn start(word: &'a [u32], heads: &'a mut [u32], links: &'a mut [u32]) -> Reading<'a>
        requires few { length word.now ≤ 4096 }
        requires letters { Below (length heads.old) word.now }
        requires room { length word.now ≤ length links.old }
        ensures { result ≡ record { word = word.now; at = length word.now; letters = length heads.old } }
    {
        heads.fill(0);
        Reading {
            word,
            at: word.len(),
            heads,
            links,
        }
    }

    /// Where the end part begins.
    pub(crate) fn at(&self) -> usize
        ensures at { result ≡ self.now.at }
        ensures inside { result ≤ length self.now.word }
    {
        self.at
    }

    /// How many letters there are.
    pub(crate) fn letters(&self) -> usize
        ensures { result ≡ self.now.letters }
    {
        self.heads.len()
    }

    /// The place behind the first occurrence of a letter in the end part, if it occurs.
    pub(crate) fn behind(&self, letter: usize) -> Option<usize>
        requires { letter < self.now.letters }
        ensures { PlaceBehind self.now letter result }
    {
        let heads = &*self.heads;
        let place = heads[letter] as usize;
        (place > 0).then_some(place)
    }

    /// Goes one place to the left: its letter, which is given, is put in front of the end part.
    pub(crate) fn put_front(&mut self) -> usize
        requires more { 0 < self.old.at }
        ensures moved { self.new ≡ record self.old { at = self.old.at - 1 } }
        ensures letter { result < self.old.letters }
        ensures front { end_part self.new ≡ result ∷ end_part self.old }
    {
        self.at -= 1;
        let letter = self.word[self.at] as usize;
        self.links[self.at] = self.heads[letter];
        self.heads[letter] = self.at as u32 + 1;
        letter
    }

    /// Goes on to the right, to the place `to`: the letters before it are taken off the end part.
    fn pass_to(&mut self, to: usize)
        requires inside { to ≤ length self.old.word }
        requires later { self.old.at ≤ to }
        ensures { self.new ≡ record self.old { at = to } }
    {
        for place in self.at..to {
            let letter = self.word[place] as usize;
            self.heads[letter] = self.links[place];
        }
        self.at = to;
    }

    /// Goes on behind the first occurrence of a letter.
    pub(crate) fn go_behind(&mut self, letter: usize)
        requires letter { letter < self.old.letters }
        requires occurs { Sub (letter ∷ []) (end_part self.old) }
        ensures moved { self.new ≡ record self.old { at = self.new.at } }
        ensures later { self.old.at < self.new.at }
        ensures behind { end_part self.new ≡ after ℕ_discrete letter (end_part self.old) }
    {
        prove!(letter < self.heads.len());
        let place = self.heads[letter] as usize;
        self.pass_to(place);
    }
}
