//! The calls on a strip, each as the strip rule says.

ghost use Rattle.std.specs.Prelude.{◌≡◌, ◌≤◌, [], length};
ghost use Rattle.strips.specs.Rule.{Put, Take, Clear, Done, RuleIsOne};
ghost use Rattle.strips.specs.Strips.{Obeys, memory_of, word_of, capacity_of, put_answer, take_answer};
ghost use Rattle.strips.specs.Words.{AtMost};

use super::Strip;
use crate::fault::StripFault;
use crate::kinds::admits;
use letters::OrderedLetter;

/// The letters that a word on a strip has at most, whatever the memory.
const MOST_LETTERS: usize = 4096;

impl<'a, L: OrderedLetter> Strip<'a, L> {
    /// A strip with the empty word in this memory, of which nothing is changed. The strip rule, which
    /// every later call follows, leaves one outcome to each.
    pub fn open(letters: &'a mut [L]) -> Strip<'a, L>
        ensures word { word_of result ≡ [] }
        ensures memory { memory_of result ≡ letters.old }
        ensures lender { result.letters.ghost_name ≡ letters.entry.ghost_name }
        ensures law { RuleIsOne L }
    {
        Strip { letters, len: 0 }
    }

    /// How many letters the word can have: as many as the memory has places, and not more than 4,096.
    pub fn capacity(&self) -> usize
        ensures { result ≡ capacity_of self.now }
    {
        self.letters.len().min(MOST_LETTERS)
    }

    /// The word, first letter first.
    pub fn word(&self) -> &[L]
        ensures word { result.now ≡ word_of self.now }
        ensures size { length result.now ≤ capacity_of self.now }
        ensures kinds { AtMost 64 result.now }
    {
        &self.letters[..self.len]
    }

    /// Adds the letter at the end.
    pub fn put(&mut self, letter: L) -> Result<(), StripFault>
        ensures { Obeys self.old (Put letter) (put_answer result) self.new }
    {
        let place = self.len;
        if place >= self.capacity() {
            return Err(StripFault::Full(place));
        }
        if !admits(self.word(), letter) {
            return Err(StripFault::TooManyKinds(place));
        }
        self.letters[place] = letter;
        self.len = place + 1;
        Ok(())
    }

    /// Removes the last letter, and answers it.
    pub fn take(&mut self) -> Result<L, StripFault>
        ensures { Obeys self.old Take (take_answer result) self.new }
    {
        let Some(last) = self.len.checked_sub(1) else {
            return Err(StripFault::Empty);
        };
        self.len = last;
        Ok(self.letters[last])
    }

    /// Removes every letter.
    pub fn clear(&mut self)
        ensures { Obeys self.old Clear Done self.new }
    {
        self.len = 0;
    }
}
