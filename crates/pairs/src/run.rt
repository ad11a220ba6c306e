//! A whole run over a word file: each plate is told from the one before, and every line is printed before
//! the next plate is read.

ghost use Rattle.std.specs.Prelude.{◌≡◌, length, is_ok, IfOk};
ghost use Rattle.words.specs.Letters.{Before};
ghost use Rattle.pairs.specs.Runs.{PrintedText, RunAnswer, fault_line};
ghost use Rattle.pairs.specs.Memories.{Room};
ghost use Rattle.pairs.specs.Steps.{Fresh, PlatesAnswer, FileAnswer};

use crate::advancing::advance;
use crate::fault::{LONGEST_FILE, RunFault};
use crate::memory::Memory;
use crate::plate::{PlateOnStrip, read_plate};
use crate::sink::Sink;
use crate::stop::Stop;
use files::{Reader, write_refusal};
use letters::{CodedLetter, Kind, Mode, Tap};
use refusals::Fault;
use std::alloc::Global;
use std::{io, mem};
use strips::Strip;

/// The letters that a word has at most.
const WORD: usize = 400;

/// The letters of a telling row, which has at most one more than a word.
const ROW: usize = WORD + 1;

/// The letters of two words and a row.
const LETTERS: usize = WORD + WORD + ROW;

/// The scratch that it takes to tell two such words apart.
const SCRATCH: usize = 16 * (WORD + WORD + 2);

/// More bytes than a line has, for plates and codes of any kind.
const LINE: usize = 4096;

/// Prints the lines of the records that the reader has before it, with the words on two strips in turn.
fn print_plates<'a, L: CodedLetter, S: Sink>(
    reader: &mut Reader<'_>,
    left: &'a mut [L],
    right: &'a mut [L],
    memory: &mut Memory<'_, L>,
    sink: &mut S,
) -> Result<(), Stop>
    requires fresh { Fresh L.kind reader.old }
    requires left_size { length left.old ≡ 400 }
    requires right_size { length right.old ≡ 400 }
    requires room { Room memory.old }
    ensures { PlatesAnswer (Before L.OrderedLetter.order) L.kind L.InRange L.code S.took reader.old.bytes.now sink.old result sink.new }
{
    let mut earlier = Strip::open(left);
    let mut later = Strip::open(right);
    let first = read_plate(reader, &mut earlier)?;
    let Some(mut number) = first else {
        return Ok(());
    };
    loop {
        let plate = PlateOnStrip {
            number,
            strip: &earlier,
        };
        let next = advance(reader, plate, &mut later, memory, sink)?;
        let Some(next) = next else {
            return Ok(());
        };
        number = next;
        mem::swap(&mut earlier, &mut later);
    }
}

/// Prints the lines of a file of these letters, with memory for two strips and a row.
// The letters are lent: an array of a letter that is not known owes that it fits in memory.
fn print_kind<L: CodedLetter, S: Sink>(
    reader: &mut Reader<'_>,
    letters: &mut [L],
    sink: &mut S,
) -> Result<(), Stop>
    requires fresh { Fresh L.kind reader.old }
    requires memory { length letters.old ≡ 1201 }
    ensures { PlatesAnswer (Before L.OrderedLetter.order) L.kind L.InRange L.code S.took reader.old.bytes.now sink.old result sink.new }
{
    let (left, rest) = letters.split_at_mut(WORD);
    let (right, row) = rest.split_at_mut(WORD);
    let mut memory = Memory {
        row,
        scratch: &mut [0; SCRATCH],
        line: &mut [0; LINE],
    };
    print_plates(reader, left, right, &mut memory, sink)
}

/// Prints the lines of the plates in the word file in `input`, up to what stops the run.
fn print_file<S: Sink>(input: &[u8], sink: &mut S) -> Result<(), Stop>
    ensures { FileAnswer S.took input.now sink.old result sink.new }
{
    if input.len() > LONGEST_FILE {
        return Err(Stop::Refused(RunFault::FileTooLong));
    }
    let mut reader = Reader::open(input)?;
    match reader.kind() {
        Kind::Modes => print_kind(&mut reader, &mut [Mode::new(1).unwrap(); LETTERS], sink),
        Kind::Taps => print_kind(&mut reader, &mut [Tap::new(1, 0).unwrap(); LETTERS], sink),
    }
}

/// Prints the line of a refusal.
fn print_fault<S: Sink>(fault: RunFault, sink: &mut S) -> io::Result<()>
    ensures { S.took sink.old (fault_line fault) (is_ok result) sink.new }
{
    let mut line = [0; LINE];
    let Ok(length) = write_refusal(fault.refusal(), &mut line) else {
        unreachable()
    };
    sink.take(&line[..length])
}

/// Prints the lines of the word file in `input`: for each plate and the next, how they are told apart; and
/// last the first refusal, if there is one. Each line goes to the sink before the next plate is read, and
/// nothing more once the sink refuses one.
pub fn print_lines<S: Sink>(input: &[u8], sink: &mut S) -> io::Result<()>
    ensures { RunAnswer S.took input.now sink.old result sink.new }
{
    match print_file(input, sink) {
        Ok(()) => Ok(()),
        Err(Stop::Refused(fault)) => print_fault(fault, sink),
        Err(Stop::Unprinted(error)) => Err(error),
    }
}

/// The text that `print_lines` prints of the word file in `input`.
pub fn text_of(heap: Global, input: &[u8]) -> io::Result<Vec<u8>>
    ensures { IfOk result (λ text. PrintedText input.now text.items) }
{
    let mut text = Vec::new(heap);
    print_lines(input, &mut text)?;
    Ok(text)
}
