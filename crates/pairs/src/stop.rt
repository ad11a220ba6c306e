//! Why a run over a word file stops early.

ghost use Rattle.std.specs.Prelude.{◌≡◌};
ghost use Rattle.pairs.specs.declared.fault.RunFault.TheVariants.{File as FileRefused};
ghost use Rattle.pairs.specs.declared.stop.Stop.TheVariants.{Refused, Unprinted};

use crate::fault::RunFault;
use files::FileFault;
use std::io;

/// What ends a run before the end of its file.
#[derive(Drop)]
pub(crate) enum Stop {
    /// What stands next in the file is refused, and the line of the refusal is still to be printed.
    Refused(RunFault),
    /// A line was not printed.
    Unprinted(io::Error),
}

impl From<RunFault> for Stop {
    ghost from_gives = { λ x r. r ≡ Refused x };

    fn from(fault: RunFault) -> Stop {
        Stop::Refused(fault)
    }
}

impl From<FileFault> for Stop {
    ghost from_gives = { λ x r. r ≡ Refused (FileRefused x) };

    fn from(fault: FileFault) -> Stop {
        Stop::Refused(RunFault::File(fault))
    }
}

impl From<io::Error> for Stop {
    ghost from_gives = { λ x r. r ≡ Unprinted x };

    fn from(error: io::Error) -> Stop {
        Stop::Unprinted(error)
    }
}
