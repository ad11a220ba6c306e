//! Why a run over a word file ends early: the first refusal of any layer.

ghost use Rattle.std.specs.Prelude.{◌≡◌};
ghost use Rattle.pairs.specs.declared.fault.RunFault.TheVariants.{File as FileRefused, Question as QuestionRefused, Write as WriteRefused};
ghost use Rattle.pairs.specs.Faults.{run_fault};

use files::{FileFault, WriteFault};
use questions::QuestionFault;
use refusals::{Fault, Refusal};
use strips::StripFault;

/// The bytes that a file has at most.
pub const LONGEST_FILE: usize = 16384;

/// A refusal, by the layer that gave it.
#[derive(Clone, Copy, PartialEq, Eq, Debug)]
pub enum RunFault {
    /// 61: the file is longer than 16,384 bytes.
    FileTooLong,
    /// 11 to 24: the file breaks a rule.
    File(FileFault),
    /// 31 or 32: the word of the record at this place does not go on its strip.
    Record(StripFault, usize),
    /// 41 or 42: too little memory was lent to tell two plates apart.
    Question(QuestionFault),
    /// 51: the line has no room.
    Write(WriteFault),
}

impl Fault for RunFault {
    ghost numbers = { run_fault };

    fn refusal(self) -> Refusal {
        match self {
            RunFault::FileTooLong => Refusal {
                number: 61,
                place: LONGEST_FILE,
            },
            RunFault::File(fault) => fault.refusal(),
            RunFault::Record(fault, place) => Refusal {
                number: fault.number(),
                place,
            },
            RunFault::Question(fault) => fault.refusal(),
            RunFault::Write(fault) => fault.refusal(),
        }
    }
}

impl From<FileFault> for RunFault {
    ghost from_gives = { λ x r. r ≡ FileRefused x };

    fn from(fault: FileFault) -> RunFault {
        RunFault::File(fault)
    }
}

impl From<QuestionFault> for RunFault {
    ghost from_gives = { λ x r. r ≡ QuestionRefused x };

    fn from(fault: QuestionFault) -> RunFault {
        RunFault::Question(fault)
    }
}

impl From<WriteFault> for RunFault {
    ghost from_gives = { λ x r. r ≡ WriteRefused x };

    fn from(fault: WriteFault) -> RunFault {
        RunFault::Write(fault)
    }
}
