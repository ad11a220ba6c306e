//! Answers as two numbers: what happened, and a length.

ghost use Rattle.std.specs.Prelude.{◌≡◌};
ghost use Rattle.bindings.specs.Replies.{separated, formed};

use refusals::{Fault, Refusal};
use words::{Side, Telling, WordFault};

/// What a call answers: a number below 3, and the length of what was written; or the number of a refusal, and its place.
#[repr(C)]
#[derive(Clone, Copy)]
pub struct Reply {
    pub number: u32,
    pub size: usize,
}

impl From<Refusal> for Reply {
    ghost from_gives = { λ refusal reply. (reply.number ≡ refusal.number) × (reply.size ≡ refusal.place) };

    fn from(refusal: Refusal) -> Reply {
        Reply {
            number: u32::from(refusal.number),
            size: refusal.place,
        }
    }
}

/// 0 for equal words, 1 for a row of the left word, 2 for a row of the right word.
impl From<Result<Option<Telling>, WordFault>> for Reply {
    ghost from_gives = { λ answer reply. reply ≡ separated answer };

    fn from(answer: Result<Option<Telling>, WordFault>) -> Reply {
        match answer {
            Ok(None) => Reply { number: 0, size: 0 },
            Ok(Some(Telling { length, side })) => Reply {
                number: match side {
                    Side::Left => 1,
                    Side::Right => 2,
                },
                size: length,
            },
            Err(fault) => Reply::from(fault.refusal()),
        }
    }
}

/// 0 for a form.
impl From<Result<usize, WordFault>> for Reply {
    ghost from_gives = { λ answer reply. reply ≡ formed answer };

    fn from(answer: Result<usize, WordFault>) -> Reply {
        match answer {
            Ok(length) => Reply {
                number: 0,
                size: length,
            },
            Err(fault) => Reply::from(fault.refusal()),
        }
    }
}
