//! The letter of callers in C: any 32-bit number, so that a word is an array of numbers.

ghost use Rattle.std.specs.Prelude.{◌≡◌};
ghost use Rattle.bindings.specs.Replies.{letter_order};
ghost use Rattle.std.proofs.Common.{rules};

use letters::OrderedLetter;
use std::cmp::Ordering;

/// A letter by its number, ordered by size.
#[repr(C)]
#[derive(Clone, Copy, PartialEq, Eq, PartialOrd, Ord)]
pub struct Letter {
    pub number: u32,
}

impl OrderedLetter for Letter {
    ghost order = { letter_order };

    ghost same = { Prim.search rules };

    ghost itself = { Prim.search rules };

    ghost flips = { Prim.search rules };

    ghost onward = { Prim.search rules };

    fn compare(self, other: Letter) -> Ordering {
        self.cmp(&other)
    }
}
