//! The first row that tells two words apart: the earliest of the shortest words that one of them has as a subsequence
//! and the other has not.

ghost use Rattle.std.specs.Prelude.{◌+◌, ◌*◌, ◌<◌, ◌≤◌, length, MatchResult};
ghost use Rattle.words.specs.Letters.{Before};
ghost use Rattle.words.specs.Separating.{BothAccepted, BothRefused, Told, SeparateAnswer};

use crate::both::Words;
use crate::fault::WordFault;
use crate::lent::{check_length, check_output, check_scratch};
use crate::ranks::number;
use crate::telling::tell;
use crate::told::Telling;
use letters::OrderedLetter;

/// Whether two words of so many letters can be told apart in this much memory.
fn check(left: usize, right: usize, room: usize, scratch: usize) -> Result<(), WordFault>
    ensures { MatchResult result (λ _. BothAccepted left right room scratch) (BothRefused left right room scratch) }
{
    check_length(left.max(right))?;
    check_scratch(scratch, left + right + 2)?;
    check_output(room, left.min(right) + 1)
}

/// Writes the first telling row of two words, the second no longer than the first, at the start of `row`.
fn separate_shorter<'a, L: OrderedLetter>(
    left: &'a [L],
    right: &'a [L],
    row: &mut [L],
    scratch: &mut [u32],
) -> Option<Telling>
    requires few { length left.now ≤ 4096 }
    requires shorter { length right.now ≤ length left.now }
    requires enough { 16 * (length left.now + length right.now + 2) ≤ length scratch.old }
    requires room { length right.now < length row.old }
    ensures { Told (Before L.order) left.now right.now row.old row.new result }
{
    let (listed, rest) = scratch.split_at_mut(left.len() + right.len());
    let (left_ranks, rest) = rest.split_at_mut(left.len());
    let (right_ranks, rest) = rest.split_at_mut(right.len());
    let (ranks, rest) = rest.split_at_mut(right.len() + 1);
    let words = Words {
        first: left,
        second: right,
    };
    let alphabet = number(&words, listed, left_ranks, right_ranks);
    let telling = tell(left_ranks, right_ranks, alphabet.len(), ranks, rest)?;
    alphabet.write_letters(&ranks[..telling.length], row);
    Some(telling)
}

/// Writes the first telling row of two words at the start of `row`, and gives its length and the word that has it; none
/// if the words are equal. It is the earliest of the shortest words that just one of the two has as a subsequence. The
/// rest of `row` stays as it is. The scratch must have 16 numbers for each letter of both words and 32 more, and `row`
/// one letter more than the shorter word.
pub fn separate<L: OrderedLetter>(
    left: &[L],
    right: &[L],
    row: &mut [L],
    scratch: &mut [u32],
) -> Result<Option<Telling>, WordFault>
    ensures { SeparateAnswer (Before L.order) left.now right.now row.old scratch.old result row.new scratch.new }
{
    check(left.len(), right.len(), row.len(), scratch.len())?;
    if right.len() <= left.len() {
        return Ok(separate_shorter(left, right, row, scratch));
    }
    Ok(separate_shorter(right, left, row, scratch).map(Telling::exchanged))
}
