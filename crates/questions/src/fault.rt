//! Why a question is refused.

ghost use Rattle.questions.specs.Faults.{question_fault};

use refusals::{Fault, Refusal};

/// A refusal, with the length that is wanted, which is its place.
#[derive(Clone, Copy, PartialEq, Eq, Debug)]
pub enum QuestionFault {
    /// 41: the scratch has too few numbers.
    Scratch(usize),
    /// 42: the output has too few places.
    Output(usize),
}

impl Fault for QuestionFault {
    ghost numbers = { question_fault };

    fn refusal(self) -> Refusal {
        match self {
            QuestionFault::Scratch(place) => Refusal { number: 41, place },
            QuestionFault::Output(place) => Refusal { number: 42, place },
        }
    }
}
