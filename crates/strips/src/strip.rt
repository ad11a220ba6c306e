//! The strip itself: the lent memory with the length of the word.

ghost use Rattle.std.specs.Prelude.{◌≤◌, min, length, take};
ghost use Rattle.strips.specs.Words.{AtMost};

mod calls;

/// A word of at most 4,096 letters in the caller's memory, first letter first, with at most 64
/// different ones.
#[derive(Drop)]
pub struct Strip<'a, L> {
    letters: &'a mut [L],
    /// How many letters the word has.
    len: usize,
    // The word lies in the memory, and within the limits of a strip. That its different letters are few
    // stands under ∥ ∥₁, since a fact of a struct has one proof at most; `word` tells it plainly.
    ghost fits: { len ≤ min (length letters.now) 4096 },
    ghost few: { ∥ AtMost 64 (take len letters.now) ∥₁ },
}
