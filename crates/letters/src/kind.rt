//! The kinds of letters that have codes, as one value: what a word file says first.

ghost use Rattle.std.specs.Prelude.{◌≡◌, Some, Decides};
ghost use Rattle.letters.specs.Kinds.{kind_number, kind_name, IsCode, KindOf};

use crate::coded::CodedLetter;
use crate::mode::Mode;
use crate::tap::Tap;
use std::fmt;

/// A kind of coded letters.
#[derive(Clone, Copy, PartialEq, Eq, Hash, Debug)]
pub enum Kind {
    Modes,
    Taps,
}

/// A number that stands for no kind.
#[derive(Clone, Copy, PartialEq, Eq, Debug)]
pub struct UnknownKind(pub u32);

impl TryFrom<u32> for Kind {
    type Error = UnknownKind;

    ghost try_from_gives = { KindOf };

    fn try_from(number: u32) -> Result<Kind, UnknownKind> {
        match number {
            1 => Ok(Kind::Modes),
            2 => Ok(Kind::Taps),
            _ => Err(UnknownKind(number)),
        }
    }
}

/// The number that stands for a kind.
impl From<Kind> for u8 {
    ghost from_gives = { λ kind number. number ≡ kind_number kind };

    fn from(kind: Kind) -> u8 {
        match kind {
            Kind::Modes => 1,
            Kind::Taps => 2,
        }
    }
}

impl Kind {
    /// Is this number a code of the kind?
    pub fn is_code(self, number: u32) -> bool
        ensures { Decides result (IsCode self number) }
    {
        match self {
            Kind::Modes => Mode::from_code(number).is_some(),
            Kind::Taps => Tap::from_code(number).is_some(),
        }
    }
}

impl fmt::Display for Kind {
    ghost output = { λ k. Some (kind_name k) };

    fn fmt<W: fmt::Write>(&self, f: &mut fmt::Formatter<W>) -> fmt::Result {
        let name = match self {
            Kind::Modes => "modes",
            Kind::Taps => "taps",
        };
        f.write_str(name)
    }
}
