//! What can be wrong with a word file.

ghost use Rattle.std.specs.Prelude.{◌≡◌, Some};
ghost use Rattle.files.specs.declared.fault.FileFault.TheVariants.{Number as NumberOutside, UnknownKind as KindUnknown};
ghost use Rattle.files.specs.Faults.{file_fault, fault_record, fault_text};

use crate::number::NumberFault;
use letters::UnknownKind;
use refusals::{Fault, Refusal};
use std::fmt;

/// A fault of a word file, with the place where the number that it is about starts.
#[derive(Clone, Copy, PartialEq, Eq, Debug)]
pub enum FileFault {
    /// 11 to 13: a number's own fault, outside a record.
    Number(NumberFault),
    /// 11 to 13: a number's own fault, in the record that starts at this place.
    InRecord(NumberFault, usize),
    /// 21: the kind number stands for no kind.
    UnknownKind(usize),
    /// 22: the plate does not exceed the one before.
    PlateNotRising(usize),
    /// 23: the letter count exceeds 4,096.
    CountTooLarge(usize),
    /// 24: the number is no code of the kind.
    NotACode(usize),
}

impl Fault for FileFault {
    ghost numbers = { file_fault };

    fn refusal(self) -> Refusal {
        match self {
            FileFault::Number(fault) => fault.refusal(),
            FileFault::InRecord(fault, _) => fault.refusal(),
            FileFault::UnknownKind(place) => Refusal { number: 21, place },
            FileFault::PlateNotRising(place) => Refusal { number: 22, place },
            FileFault::CountTooLarge(place) => Refusal { number: 23, place },
            FileFault::NotACode(place) => Refusal { number: 24, place },
        }
    }
}

impl FileFault {
    /// The first byte of the record in which a number had its own fault.
    pub fn record(self) -> Option<usize>
        ensures { result ≡ fault_record self }
    {
        match self {
            FileFault::InRecord(_, record) => Some(record),
            _ => None,
        }
    }
}

impl fmt::Display for FileFault {
    ghost output = { λ f. Some (fault_text f) };

    fn fmt<W: fmt::Write>(&self, f: &mut fmt::Formatter<W>) -> fmt::Result {
        self.refusal().fmt(f)
    }
}

/// A number's fault outside a record is the file's fault.
impl From<NumberFault> for FileFault {
    ghost from_gives = { λ x r. r ≡ NumberOutside x };

    fn from(fault: NumberFault) -> FileFault {
        FileFault::Number(fault)
    }
}

/// The kind is what a file begins with.
impl From<UnknownKind> for FileFault {
    ghost from_gives = { λ _ r. r ≡ KindUnknown 0 };

    fn from(_: UnknownKind) -> FileFault {
        FileFault::UnknownKind(0)
    }
}
