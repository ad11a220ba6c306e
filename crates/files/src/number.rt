//! Numbers in bytes: groups of seven bits, high group first, the shortest form, at most four bytes.

ghost use Rattle.files.specs.Numbers.{NumberRead, number_fault};

use refusals::{Fault, Refusal};

/// A number as it was read: its value, and the place after its last byte.
#[derive(Clone, Copy, PartialEq, Eq, Debug)]
pub struct Number {
    pub value: u32,
    pub next: usize,
}

/// Why there is no number at a place. Each fault has the place of the byte that it is about.
#[derive(Clone, Copy, PartialEq, Eq, Debug)]
pub enum NumberFault {
    /// 11: no byte here.
    Missing(usize),
    /// 12: the first byte is 80h, which the shortest form never begins with.
    Padded(usize),
    /// 13: the fourth byte has its top bit set.
    TooLong(usize),
}

impl Fault for NumberFault {
    ghost numbers = { number_fault };

    fn refusal(self) -> Refusal {
        match self {
            NumberFault::Missing(place) => Refusal { number: 11, place },
            NumberFault::Padded(place) => Refusal { number: 12, place },
            NumberFault::TooLong(place) => Refusal { number: 13, place },
        }
    }
}

/// The groups that a number has at most.
const GROUPS: usize = 4;

/// Reads the number that stands in `bytes` at the place `at`.
pub fn read_number(bytes: &[u8], at: usize) -> Result<Number, NumberFault>
    ensures { NumberRead bytes.now at result }
{
    let mut value = 0;
    for group in 0..GROUPS {
        let place = at + group;
        let Some(&byte) = bytes.get(place) else {
            return Err(NumberFault::Missing(place));
        };
        if group == 0 && byte == 0x80 {
            return Err(NumberFault::Padded(place));
        }
        value = value * 128 + u32::from(byte % 0x80);
        if byte < 0x80 {
            return Ok(Number {
                value,
                next: place + 1,
            });
        }
    }
    Err(NumberFault::TooLong(at + GROUPS - 1))
}
