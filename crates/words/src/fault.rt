//! Why a question about words is refused.

ghost use Rattle.words.specs.Faults.{word_fault};

use refusals::{Fault, Refusal};

/// The letters that a word has at most.
pub const LONGEST: usize = 4096;

/// What is lacking: the word is too long, or the caller lent too little memory.
#[derive(Clone, Copy, PartialEq, Eq, Debug)]
pub enum WordFault {
    /// 43: the word has more than 4,096 letters.
    TooLong,
    /// 41: the scratch has fewer numbers than this.
    Scratch(usize),
    /// 42: the output has fewer letters than this.
    Output(usize),
}

/// The place of a refusal is the length that is allowed or wanted.
impl Fault for WordFault {
    ghost numbers = { word_fault };

    fn refusal(self) -> Refusal {
        match self {
            WordFault::TooLong => Refusal {
                number: 43,
                place: LONGEST,
            },
            WordFault::Scratch(place) => Refusal { number: 41, place },
            WordFault::Output(place) => Refusal { number: 42, place },
        }
    }
}
