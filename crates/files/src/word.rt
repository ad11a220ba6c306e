//! The letters of a record, read from its code bytes.

ghost use Rattle.std.specs.Prelude.{◌≡◌};
ghost use Rattle.files.specs.Words.{LetterRead};

use crate::fault::FileFault;
use crate::number::read_number;
use letters::CodedLetter;
use std::marker::PhantomData;

/// Goes over code bytes, letter by letter.
#[derive(Drop)]
pub struct Letters<'a, L> {
    codes: &'a [u8],
    /// The place of the next code.
    at: usize,
    kind: PhantomData<L>,
}

impl<'a, L: CodedLetter> Letters<'a, L> {
    /// Stands before the first letter of `codes`.
    pub fn over(codes: &'a [u8]) -> Letters<'a, L>
        ensures { (result.codes.now ≡ codes.now) × (result.at ≡ 0) }
    {
        Letters {
            codes,
            at: 0,
            kind: PhantomData,
        }
    }

    /// Reads the next letter, or none at the end of the bytes. After a fault nothing has changed, and
    /// its place counts from the first of the code bytes.
    // Not an `Iterator`, as `Reader` is none.
    pub fn next(&mut self) -> Result<Option<L>, FileFault>
        ensures answer { LetterRead L.kind L.InRange L.code self.old.codes.now self.old.at result self.new.at }
        ensures same_bytes { self.new.codes ≡ self.old.codes }
    {
        if self.at >= self.codes.len() {
            return Ok(None);
        }
        let number = read_number(self.codes, self.at)?;
        let Some(letter) = L::from_code(number.value) else {
            return Err(FileFault::NotACode(self.at));
        };
        self.at = number.next;
        Ok(Some(letter))
    }
}
