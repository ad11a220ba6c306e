//! What asking for a telling row answers.

ghost use Rattle.std.specs.Prelude.{◌≡◌};
ghost use Rattle.words.specs.Rows.{other_side};

/// Which of two words has a telling row.
#[derive(Clone, Copy, PartialEq, Eq, Debug)]
pub enum Side {
    Left,
    Right,
}

impl Side {
    /// The side of the other word.
    pub(crate) fn other(self) -> Self
        ensures { result ≡ other_side self }
    {
        match self {
            Side::Left => Side::Right,
            Side::Right => Side::Left,
        }
    }
}

/// A telling row in the row memory: how many letters it has, and the word that has it as a subsequence.
#[derive(Clone, Copy, PartialEq, Eq, Debug)]
pub struct Telling {
    pub length: usize,
    pub side: Side,
}

impl Telling {
    /// The same row for the two words exchanged.
    pub(crate) fn exchanged(self) -> Self
        ensures length { result.length ≡ self.length }
        ensures side { result.side ≡ other_side self.side }
    {
        Telling {
            side: self.side.other(),
            ..self
        }
    }
}
