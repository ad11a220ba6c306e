//! Reading word files: over the caller's bytes, record by record.

ghost use Rattle.std.specs.Prelude.{◌≡◌};
ghost use Rattle.files.specs.Records.{OpenRead, NextRead};
ghost use Rattle.files.specs.Steps.{NumberIn, HeadAt, CodesAt};

use crate::fault::FileFault;
use crate::number::{Number, read_number};
use letters::Kind;

/// A record of a word file, as it lies in the bytes.
#[derive(Clone, Copy)]
pub struct Record<'a> {
    /// The plate's number.
    pub plate: u32,
    /// How many letters the word has.
    pub count: u32,
    /// Where the record's first byte is.
    pub place: usize,
    /// The bytes of the codes, a part of the input.
    pub codes: &'a [u8],
}

/// Goes over the bytes of a word file. It stands before a record, or at the end.
#[derive(Drop)]
pub struct Reader<'a> {
    bytes: &'a [u8],
    kind: Kind,
    /// The place of the next record.
    at: usize,
    /// The plate of the record before, 0 at the first.
    last: u32,
}

/// The numbers that a record begins with.
#[derive(Clone, Copy)]
struct Head {
    plate: u32,
    count: u32,
    /// The place of the first code.
    codes: usize,
}

/// The letters that a record has at most.
const MOST_LETTERS: u32 = 4096;

impl<'a> Reader<'a> {
    /// Reads the kind of the file in `bytes`, and stands before its first record.
    pub fn open(bytes: &'a [u8]) -> Result<Reader<'a>, FileFault>
        ensures { OpenRead bytes.now result }
    {
        let number = read_number(bytes, 0)?;
        let kind = Kind::try_from(number.value)?;
        Ok(Reader {
            bytes,
            kind,
            at: number.next,
            last: 0,
        })
    }

    /// The kind of the file.
    pub fn kind(&self) -> Kind
        ensures { result ≡ self.now.kind }
    {
        self.kind
    }

    /// The place of the next record, or of the end.
    pub fn place(&self) -> usize
        ensures { result ≡ self.now.at }
    {
        self.at
    }

    /// Reads the next record, or none at the end. After a fault the reader is as it was.
    // Not an `Iterator`: one that answers its fault at each later call too has no end that a `for` could be proved by.
    pub fn next(&mut self) -> Result<Option<Record<'a>>, FileFault>
        ensures { NextRead self.old result self.new }
    {
        let place = self.at;
        if place >= self.bytes.len() {
            return Ok(None);
        }
        let head = self.head()?;
        let end = self.codes_end(head)?;
        let codes = &self.bytes[head.codes..end];
        (self.at, self.last) = (end, head.plate);
        Ok(Some(Record {
            plate: head.plate,
            count: head.count,
            place,
            codes,
        }))
    }

    /// Reads a number of the record that is next.
    fn number(&self, at: usize) -> Result<Number, FileFault>
        ensures { NumberIn self.now at result }
    {
        let place = self.at;
        read_number(self.bytes, at).map_err(|fault| FileFault::InRecord(fault, place))
    }

    /// Reads the plate and the count of the record that is next.
    fn head(&self) -> Result<Head, FileFault>
        ensures { HeadAt self.now result }
    {
        let plate = self.number(self.at)?;
        if plate.value <= self.last {
            return Err(FileFault::PlateNotRising(self.at));
        }
        let count = self.number(plate.next)?;
        if count.value > MOST_LETTERS {
            return Err(FileFault::CountTooLarge(plate.next));
        }
        Ok(Head {
            plate: plate.value,
            count: count.value,
            codes: count.next,
        })
    }

    /// Passes over the codes of the record that is next, behind its head, and answers where they end.
    fn codes_end(&self, head: Head) -> Result<usize, FileFault>
        ensures { CodesAt self.now head result }
    {
        let mut at = head.codes;
        for _code in 0..head.count {
            let number = self.number(at)?;
            if !self.kind.is_code(number.value) {
                return Err(FileFault::NotACode(at));
            }
            at = number.next;
        }
        Ok(at)
    }
}
