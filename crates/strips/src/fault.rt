//! Why a strip refuses a call.

ghost use Rattle.std.specs.Prelude.{Some};
ghost use Rattle.strips.specs.Faults.{strip_fault, fault_text};

use refusals::{Fault, Refusal};
use std::fmt;

/// A refusal, with the length of the word, which is its place.
#[derive(Clone, Copy, PartialEq, Eq, Debug)]
pub enum StripFault {
    /// 31: the word has as many letters as the strip can hold.
    Full(usize),
    /// 32: the letter is new, and there are 64 different ones already.
    TooManyKinds(usize),
    /// 33: there is no letter to take.
    Empty,
}

impl Fault for StripFault {
    ghost numbers = { strip_fault };

    fn refusal(self) -> Refusal {
        match self {
            StripFault::Full(place) => Refusal { number: 31, place },
            StripFault::TooManyKinds(place) => Refusal { number: 32, place },
            StripFault::Empty => Refusal {
                number: 33,
                place: 0,
            },
        }
    }
}

impl fmt::Display for StripFault {
    ghost output = { λ f. Some (fault_text f) };

    fn fmt<W: fmt::Write>(&self, f: &mut fmt::Formatter<W>) -> fmt::Result {
        self.refusal().fmt(f)
    }
}
