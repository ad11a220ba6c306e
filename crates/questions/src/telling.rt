//! The first row that tells two strips apart.

ghost use Rattle.std.specs.Prelude.{◌≢◌};
ghost use Rattle.strips.specs.Strips.{word_of};
ghost use Rattle.words.specs.Letters.{Before};
ghost use Rattle.words.specs.declared.fault.WordFault.TheVariants.{TooLong};
ghost use Rattle.questions.specs.Separate.{Asked, Lacks};

use crate::fault::QuestionFault;
use letters::OrderedLetter;
use strips::Strip;
use words::{Telling, WordFault};

/// The memory that a question about words lacks. No strip has a word that is too long.
fn lacking(fault: WordFault) -> QuestionFault
    requires { fault ≢ TooLong }
    ensures { Lacks fault result }
{
    match fault {
        WordFault::Scratch(wanted) => QuestionFault::Scratch(wanted),
        WordFault::Output(wanted) => QuestionFault::Output(wanted),
        WordFault::TooLong => unreachable(),
    }
}

/// Writes the first telling row of the words on two strips into the first places of `row`, and answers
/// its length and the strip that has it; none if the words are equal.
pub fn separate<L: OrderedLetter>(
    left: &Strip<'_, L>,
    right: &Strip<'_, L>,
    row: &mut [L],
    scratch: &mut [u32],
) -> Result<Option<Telling>, QuestionFault>
    ensures { Asked (Before L.order) (word_of left.now) (word_of right.now) row.old scratch.old result row.new scratch.new }
{
    words::separate(left.word(), right.word(), row, scratch).map_err(lacking)
}
