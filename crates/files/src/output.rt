//! Outputs: what takes a text piece by piece, so that a text is spelled in one place, be it measured or written.

ghost use Rattle.std.specs.Prelude.{◌≡◌, ℕ, List, [], ◌++◌, length, decimal, true};
ghost use Rattle.files.specs.Outputs.{room_behind, Fills};
ghost use Rattle.files.specs.OutputLaws.{room_behind_nothing, room_behind_both, fills_nothing, fills_both};

use itoa::{Buffer, write_digits};

/// Takes a text, piece by piece.
// Not `std::fmt::Write`: its contract does not say when a write succeeds, so no refusal for want of room is proved by it.
pub(crate) trait Output {
    /// Holds of the output before, the bytes that it is given, and the output after.
    ghost took: { Self → List ℕ → Self → Type 0 };

    /// Takes the text.
    fn put(&mut self, text: &str)
        ensures { took self.old text.now self.new };

    /// Takes a number in decimal.
    fn put_number(&mut self, number: u64)
        ensures { took self.old (decimal number) self.new }
    {
        let mut digits = Buffer::new();
        self.put(digits.format(number));
    }

    /// Whether it stays as it is, whatever it is given: a long text need not be gone through to its end then.
    fn is_done(&self) -> bool
        ensures { result ≡ true → (s : List ℕ) → took self.now s self.now };

    // To take nothing changes nothing, and two texts are taken as the one that they make.
    ghost nothing: { (a : Self) → took a [] a };

    ghost both: { (a b c : Self) (s t : List ℕ) → took a s b → took b t c → took a (s ++ t) c };
}

/// Measures a text: how much room is left behind it; none where it does not fit.
#[derive(Drop)]
pub(crate) struct Room {
    pub left: Option<usize>,
}

impl Output for Room {
    ghost took = { λ a s b. b.left ≡ room_behind (length s) a.left };

    ghost nothing = { λ a. room_behind_nothing a.left };

    ghost both = { λ a b c s t. room_behind_both a.left b.left c.left s t };

    fn put(&mut self, text: &str) {
        self.left = self.left.and_then(|room| room.checked_sub(text.len()));
    }

    fn is_done(&self) -> bool {
        self.left.is_none()
    }
}

/// Writes a text into lent bytes, from the first on.
#[derive(Drop)]
pub(crate) struct Filler<'a> {
    pub out: &'a mut [u8],
    /// How many bytes are filled.
    pub filled: usize,
}

impl Output for Filler<'_> {
    ghost took = { Fills };

    ghost nothing = { fills_nothing };

    ghost both = { fills_both };

    fn put(&mut self, text: &str) {
        let end = self.filled.saturating_add(text.len());
        if end <= self.out.len() {
            self.out[self.filled..end].copy_from_slice(text.as_bytes());
            self.filled = end;
        }
    }

    // Its digits are written in place; those of the buffer only tell how many there are, and where this is inlined they are
    // never written.
    #[inline(always)]
    fn put_number(&mut self, number: u64) {
        let mut digits = Buffer::new();
        let end = self.filled.saturating_add(digits.format(number).len());
        if end <= self.out.len() {
            write_digits(number, self.out, end);
            self.filled = end;
        }
    }

    fn is_done(&self) -> bool {
        false
    }
}
