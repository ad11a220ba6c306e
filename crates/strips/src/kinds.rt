//! How many different letters a word has.

ghost use Rattle.std.specs.Prelude.{◌≡◌, length, Decides};
ghost use Rattle.strips.specs.Rule.{Admits};
ghost use Rattle.strips.specs.Words.{In, AtMost};

use letters::OrderedLetter;

/// A strip holds 64 different letters: with this many, or fewer, it has room for a new one.
const KINDS_WITH_ROOM: usize = 63;

/// Whether the letter may come into the word. Only for a new letter are the different ones counted.
pub(crate) fn admits<L: OrderedLetter>(word: &[L], letter: L) -> bool
    ensures { Decides result (Admits letter word.now) }
{
    is_present(word, letter) || has_room_for_a_kind(word, letter)
}

fn is_present<L: OrderedLetter>(word: &[L], letter: L) -> bool
    ensures { Decides result (In letter word.now) }
{
    // A loop, since the compiler makes one over many letters at a time of it, and of `any` it does not.
    for other in word {
        if other.compare(letter).is_eq() {
            return true;
        }
    }
    false
}

/// Whether there are fewer than 64 different letters in the word. `filler` may be any letter.
fn has_room_for_a_kind<L: OrderedLetter>(word: &[L], filler: L) -> bool
    ensures { Decides result (AtMost 63 word.now) }
{
    if word.len() <= KINDS_WITH_ROOM {
        return true;
    }
    let mut found = [filler; KINDS_WITH_ROOM];
    kinds_fit(word, &mut found)
}

/// Collects the different letters of the word in `found`: whether there is a place for each.
// A slice with a count beside it: there is no heap here, and an `ArrayVec` wants a `Default`, which a letter need not have.
fn kinds_fit<L: OrderedLetter>(word: &[L], found: &mut [L]) -> bool
    ensures { Decides result (AtMost (length found.old) word.now) }
{
    let mut count = 0;
    for letter in word {
        if !is_present(&found[..count], *letter) {
            if count == found.len() {
                return false;
            }
            found[count] = *letter;
            count += 1;
        }
    }
    true
}
