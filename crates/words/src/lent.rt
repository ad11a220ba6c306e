//! What a question about words wants of its caller: words that are short enough, and enough lent memory.

ghost use Rattle.std.specs.Prelude.{◌≡◌, ◌*◌, ◌^◌, ◌<◌, ◌≤◌, MatchResult};
ghost use Rattle.words.specs.declared.fault.WordFault.TheVariants.{TooLong, Scratch, Output};

use crate::fault::{LONGEST, WordFault};

/// The numbers of scratch for each letter of the words, and for each word as many again.
const SCRATCH: usize = 16;

/// Whether a word of so many letters is short enough.
pub(crate) fn check_length(letters: usize) -> Result<(), WordFault>
    ensures { MatchResult result (λ _. letters ≤ 4096) (λ fault. (fault ≡ TooLong) × (4096 < letters)) }
{
    if letters <= LONGEST {
        Ok(())
    } else {
        Err(WordFault::TooLong)
    }
}

/// Whether the scratch is enough for so many letters and words together.
pub(crate) fn check_scratch(scratch: usize, letters: usize) -> Result<(), WordFault>
    requires few { letters < 2 ^ 32 }
    ensures { MatchResult result (λ _. 16 * letters ≤ scratch) (λ fault. (fault ≡ Scratch (16 * letters)) × (scratch < 16 * letters)) }
{
    let wanted = SCRATCH * letters;
    if wanted <= scratch {
        Ok(())
    } else {
        Err(WordFault::Scratch(wanted))
    }
}

/// Whether the output has room for so many letters.
pub(crate) fn check_output(room: usize, letters: usize) -> Result<(), WordFault>
    ensures { MatchResult result (λ _. letters ≤ room) (λ fault. (fault ≡ Output letters) × (room < letters)) }
{
    if letters <= room {
        Ok(())
    } else {
        Err(WordFault::Output(letters))
    }
}
