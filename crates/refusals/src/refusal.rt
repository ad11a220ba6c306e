//! A refusal as people and programs meet it: two numbers, whichever layer refused.

ghost use Rattle.std.specs.Prelude.{Some};
ghost use Rattle.refusals.specs.Texts.{refusal_text};

use std::fmt;

/// The number of a refusal, and the place or the length that it is about.
#[derive(Clone, Copy, PartialEq, Eq, Debug)]
pub struct Refusal {
    pub number: u8,
    pub place: usize,
}

/// A refusal shows as `fault 31 at 8`.
impl fmt::Display for Refusal {
    ghost output = { λ r. Some (refusal_text r.number r.place) };

    fn fmt<W: fmt::Write>(&self, f: &mut fmt::Formatter<W>) -> fmt::Result {
        let Refusal { number, place } = *self;
        write!(f, "fault {number} at {place}")
    }
}
