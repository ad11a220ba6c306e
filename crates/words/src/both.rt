//! Two words whose letters are numbered together.

ghost use Rattle.std.specs.Prelude.{◌≡◌, ◌+◌, ◌^◌, ◌<◌, length, Some};
ghost use Rattle.std.specs.List.{slice_get};

use letters::OrderedLetter;

/// Two words; the places of the first come before those of the second.
#[derive(Drop)]
pub(crate) struct Words<'a, L> {
    pub first: &'a [L],
    pub second: &'a [L],
    ghost few: { length first.now + length second.now < 2 ^ 32 },
}

impl<'a, L: OrderedLetter> Words<'a, L> {
    ghost use Rattle.words.specs.Both.{both};

    /// How many letters the two words have.
    pub(crate) fn len(&self) -> usize
        ensures { result ≡ length (both self.now) }
    {
        self.first.len() + self.second.len()
    }

    /// The letter at a place.
    pub(crate) fn letter(&self, place: usize) -> L
        requires { place < length (both self.now) }
        ensures { slice_get (both self.now) place ≡ Some result }
    {
        if place < self.first.len() {
            self.first[place]
        } else {
            self.second[place - self.first.len()]
        }
    }
}
