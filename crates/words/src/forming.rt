//! The form of a word: the earliest of all words that have the same subsequences of at most `k` letters.

ghost use Rattle.std.specs.Prelude.{◌≡◌, ◌≤◌, length, take, drop, MatchResult};
ghost use Rattle.words.specs.Forms.{Accepted, FormAnswer, Refused};
ghost use Rattle.words.specs.Letters.{Before};
ghost use Rattle.words.specs.Steps.{Below, Climbs, Spells};

use crate::fault::WordFault;
use crate::lean::thin_out;
use crate::lent::{check_length, check_output, check_scratch};
use letters::OrderedLetter;

/// Whether the form of a word of `letters` letters can be found in this much memory.
fn check(letters: usize, room: usize, scratch: usize) -> Result<(), WordFault>
    ensures { MatchResult result (λ _. Accepted letters room scratch) (Refused letters room scratch) }
{
    check_length(letters)?;
    check_scratch(scratch, letters + 1)?;
    check_output(room, letters)
}

/// Writes the letters at these places of the word, one after the other, at the start of `out`.
fn gather<L: OrderedLetter>(word: &[L], places: &[u32], out: &mut [L])
    requires below { Below (length word.now) places.now }
    requires room { length places.now ≤ length out.old }
    ensures letters { Spells word.now places.now (take (length places.now) out.new) }
    ensures rest { drop (length places.now) out.new ≡ drop (length places.now) out.old }
{
    for (i, place) in places.iter().enumerate() {
        out[i] = word[*place as usize];
    }
}

/// The same in the word's own memory. The places rise, so no letter is moved to the right, and each is read before its
/// place is written.
fn gather_in_place<L: OrderedLetter>(word: &mut [L], places: &[u32])
    requires below { Below (length word.old) places.now }
    requires climbing { Climbs 0 places.now }
    ensures letters { Spells word.old places.now (take (length places.now) word.new) }
    ensures rest { drop (length places.now) word.new ≡ drop (length places.now) word.old }
{
    // A twin, as `form_in_place` is: one memory cannot be lent to be read and to be written at once.
    for (i, place) in places.iter().enumerate() {
        word[i] = word[*place as usize];
    }
}

/// Writes the form of `word` at `k` at the start of `out`, and gives its length: the earliest of all words that have the
/// same subsequences of at most `k` letters. The rest of `out` stays as it is. The scratch must have 16 numbers for each
/// letter and 16 more, and `out` as many letters as the word.
pub fn form<L: OrderedLetter>(
    word: &[L],
    k: u16,
    out: &mut [L],
    scratch: &mut [u32],
) -> Result<usize, WordFault>
    ensures { FormAnswer (Before L.order) k word.now out.old scratch.old result out.new scratch.new }
{
    check(word.len(), out.len(), scratch.len())?;
    let mut lean = thin_out(word, k, scratch);
    let places = lean.places();
    let count = places.len();
    gather(word, places, out);
    lean.sort(&mut out[..count]);
    Ok(count)
}

/// The same, with the word's own memory for the output.
pub fn form_in_place<L: OrderedLetter>(
    word: &mut [L],
    k: u16,
    scratch: &mut [u32],
) -> Result<usize, WordFault>
    ensures { FormAnswer (Before L.order) k word.old word.old scratch.old result word.new scratch.new }
{
    check(word.len(), word.len(), scratch.len())?;
    let mut lean = thin_out(word, k, scratch);
    let places = lean.places();
    let count = places.len();
    gather_in_place(word, places);
    lean.sort(&mut word[..count]);
    Ok(count)
}
