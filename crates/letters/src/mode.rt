//! Modes: the letters of plates that are judged by which mode rings.

ghost use Rattle.std.specs.Prelude.{◌≡◌, Some, decimal, Decides};
ghost use Rattle.letters.specs.declared.kind.Kind.TheVariants.{Modes};
ghost use Rattle.letters.specs.Modes.{ModeNumber, mode_of, mode_order};
ghost use Rattle.std.proofs.Common.{rules};

use crate::coded::CodedLetter;
use crate::kind::Kind;
use crate::ordered::OrderedLetter;
use std::cmp::Ordering;
use std::fmt;

/// The highest mode.
const LAST: u8 = 24;

/// A mode, by its number from 1 to 24.
#[derive(Clone, Copy, PartialEq, Eq, PartialOrd, Ord, Hash, Debug)]
pub struct Mode {
    value: u8,
}

impl Mode {
    /// The mode with this number; none outside 1 to 24.
    pub fn new(value: u8) -> Option<Mode>
        ensures { result ≡ mode_of value }
    {
        is_mode_number(value).then_some(Mode { value })
    }

    pub fn value(self) -> u8
        ensures { result ≡ self.value }
    {
        self.value
    }
}

fn is_mode_number(value: u8) -> bool
    ensures { Decides result (ModeNumber value) }
{
    (1..=LAST).contains(&value)
}

impl fmt::Display for Mode {
    ghost output = { λ m. Some (decimal m.value) };

    fn fmt<W: fmt::Write>(&self, f: &mut fmt::Formatter<W>) -> fmt::Result {
        let value = self.value;
        write!(f, "{value}")
    }
}

impl OrderedLetter for Mode {
    ghost order = { mode_order };

    ghost same = { Prim.search rules };

    ghost itself = { Prim.search rules };

    ghost flips = { Prim.search rules };

    ghost onward = { Prim.search rules };

    fn compare(self, other: Mode) -> Ordering {
        self.cmp(&other)
    }
}

impl CodedLetter for Mode {
    ghost kind = { Modes };

    ghost InRange = { λ m. ModeNumber m.value };

    ghost letter = { mode_of };

    ghost code = { λ m. m.value };

    ghost bounded = { Prim.search rules };

    ghost decodes = { Prim.search rules };

    ghost encodes = { Prim.search rules };

    fn kind() -> Kind {
        Kind::Modes
    }

    fn in_range(self) -> bool {
        is_mode_number(self.value)
    }

    fn from_code(number: u32) -> Option<Mode> {
        u8::try_from(number).ok().and_then(Mode::new)
    }

    fn code(self) -> u32 {
        u32::from(self.value)
    }
}
