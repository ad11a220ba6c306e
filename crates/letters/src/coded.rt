//! The codes of letters: the numbers by which word files and printed lines name them.

ghost use Rattle.std.specs.Prelude.{◌≡◌, ℕ, ◌≤◌, Some, Decides, Option, MatchOption};
ghost use Rattle.letters.specs.declared.kind.Kind.{Kind};
ghost use Rattle.letters.specs.Kinds.{IsCode};

use crate::kind::Kind;
use crate::ordered::OrderedLetter;

/// An ordered letter that also has a code.
pub trait CodedLetter: OrderedLetter {
    /// The kind, which has a number, and tells which numbers are codes.
    ghost kind: { Kind };

    /// Which values of the type are letters of the kind. The type may have others: they are
    /// letters of no kind, no call makes one, and the code laws leave them out.
    ghost InRange: { Self → Type 0 };

    /// The letter of a code.
    ghost letter: { ℕ → Option Self };

    /// The code of a letter.
    ghost code: { Self → ℕ };

    /// The kind of these letters.
    fn kind() -> Kind
        ensures { result ≡ kind };

    /// Is this value a letter of the kind?
    fn in_range(self) -> bool
        ensures { Decides result (InRange self) };

    /// The letter of a code; none for a number that is no code.
    fn from_code(number: u32) -> Option<Self>
        ensures { result ≡ letter number };

    /// The code of this letter.
    fn code(self) -> u32
        ensures { result ≡ code self };

    ghost bounded: { (n : ℕ) → IsCode kind n → n ≤ 268435455 };

    // A number that is no code has no letter; the letter of a code is in range, and its code is that code.
    ghost decodes: { (n : ℕ) → MatchOption (letter n) (IsCode kind n → ⊥) (λ a. IsCode kind n × InRange a × (code a ≡ n)) };

    // The letter of an in-range letter's code is that letter.
    ghost encodes: { (a : Self) → InRange a → letter (code a) ≡ Some a };
}
