//! What the faults of every layer have in common.

ghost use Rattle.std.specs.Prelude.{◌≡◌, ℕ};

use crate::refusal::Refusal;

/// Why a call is refused. Each layer has an enum of its own faults, and each fault a number and a place.
pub trait Fault: Copy {
    /// The number and the place of a fault.
    ghost numbers: { Self → ℕ × ℕ };

    /// The refusal that this fault makes.
    fn refusal(self) -> Refusal
        ensures number { result.number ≡ (numbers self).0 }
        ensures place { result.place ≡ (numbers self).1 };

    final fn number(self) -> u8
        ensures { result ≡ (numbers self).0 }
    {
        self.refusal().number
    }

    final fn place(self) -> usize
        ensures { result ≡ (numbers self).1 }
    {
        self.refusal().place
    }
}
