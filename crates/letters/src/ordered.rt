//! The order of letters. All that strips and questions know of a letter is what stands here.

ghost use Rattle.std.specs.Prelude.{◌≡◌, true};
ghost use Rattle.std.specs.declared.cmp.Ordering.TheVariants.{Equal};
ghost use Rattle.std.specs.declared.cmp.Ordering.{Ordering};
ghost use Rattle.std.specs.Ordering.{is_le, ordering_reverse};

use std::cmp::Ordering;

/// A letter that stands before, with or after each other letter of its kind (-1, 0 and 1 as an
/// `Ordering`). Letters are plain values: a copy is the same letter.
pub trait OrderedLetter: Copy {
    /// Where the first letter stands to the second.
    ghost order: { Self → Self → Ordering };

    /// Where this letter stands to the other.
    fn compare(self, other: Self) -> Ordering
        ensures { result ≡ order self other };

    // Two letters are together exactly when they are the same letter.
    ghost same: { (a b : Self) → order a b ≡ Equal → a ≡ b };

    ghost itself: { (a : Self) → order a a ≡ Equal };

    // Exchanging the two changes the sign.
    ghost flips: { (a b : Self) → order b a ≡ ordering_reverse (order a b) };

    // If `a` is not after `b` and `b` is not after `c`, then `a` is not after `c`.
    ghost onward: { (a b c : Self) → is_le (order a b) ≡ true → is_le (order b c) ≡ true → is_le (order a c) ≡ true };
}
