//! The lines of a run, written into lent bytes: of two plates, and of a refusal.

ghost use Rattle.std.specs.Prelude.{◌≡◌, ℕ, List, map};
ghost use Rattle.files.specs.Line.{write_fault, text_of_side, comma_text, row_text, line_text, refusal_text, Wrote};

use crate::output::{Filler, Output, Room};
use letters::CodedLetter;
use refusals::{Fault, Refusal};
use words::Side;

/// Why nothing was written.
#[derive(Clone, Copy, PartialEq, Eq, Debug)]
pub enum WriteFault {
    /// 51: the output does not suffice.
    NoRoom(usize),
}

impl Fault for WriteFault {
    ghost numbers = { write_fault };

    fn refusal(self) -> Refusal {
        match self {
            WriteFault::NoRoom(place) => Refusal { number: 51, place },
        }
    }
}

/// A text that outputs are given.
// Not `std::fmt::Display`, since an output is no `std::fmt::Write`.
trait Text {
    /// The bytes of the text.
    ghost text: { Self → List ℕ };

    /// Gives the output the text.
    fn put<O: Output>(&self, output: &mut O)
    where
        Self: Sized,
        ensures { O.took output.old (text self.now) output.new };
}

/// Writes the text into the first bytes of `out`, and answers how many these are. It is measured first, so that a
/// refusal changes nothing.
fn write_text<T: Text>(text: &T, out: &mut [u8]) -> Result<usize, WriteFault>
    ensures { Wrote out.old (T.text text.now) result out.new }
{
    let mut room = Room {
        left: Some(out.len()),
    };
    text.put(&mut room);
    if room.left.is_none() {
        return Err(WriteFault::NoRoom(0));
    }
    let mut filler = Filler { out, filled: 0 };
    text.put(&mut filler);
    Ok(filler.filled)
}

/// The line of two plates, and the row that tells them apart.
#[derive(Drop)]
struct PlatesLine<'a, L> {
    first: u32,
    second: u32,
    side: Side,
    row: &'a [L],
}

impl<L: CodedLetter> Text for PlatesLine<'_, L> {
    ghost text = { λ line. line_text line.first line.second line.side (map L.code line.row.now) };

    fn put<O: Output>(&self, output: &mut O) {
        output.put_number(self.first as u64);
        output.put(" ");
        output.put_number(self.second as u64);
        put_row(output, self.side, self.row);
    }
}

/// Puts what follows the two plates: the degree, the side and the codes of the row.
fn put_row<O: Output, L: CodedLetter>(output: &mut O, side: Side, row: &[L])
    ensures { O.took output.old (row_text side (map L.code row.now)) output.new }
{
    let Some((first, rest)) = row.split_first() else {
        output.put(" = - -\n");
        return;
    };
    output.put(" ");
    output.put_number(rest.len() as u64);
    output.put(side_text(side));
    output.put_number(first.code() as u64);
    put_commas(output, rest);
    output.put("\n");
}

/// Puts the codes of the row, a comma before each.
fn put_commas<O: Output, L: CodedLetter>(output: &mut O, row: &[L])
    ensures { O.took output.old (comma_text (map L.code row.now)) output.new }
{
    for letter in row {
        if output.is_done() {
            return;
        }
        output.put(",");
        output.put_number(letter.code() as u64);
    }
}

/// The side as it stands in a line.
fn side_text(side: Side) -> &'static str
    ensures { result.now ≡ text_of_side side }
{
    match side {
        Side::Left => " L ",
        Side::Right => " R ",
    }
}

/// The line of a refusal, `fault N at P`.
impl Text for Refusal {
    ghost text = { λ refusal. refusal_text refusal.number refusal.place };

    fn put<O: Output>(&self, output: &mut O) {
        output.put("fault ");
        output.put_number(self.number as u64);
        output.put(" at ");
        output.put_number(self.place as u64);
        output.put("\n");
    }
}

/// Writes the line of two plates into the first bytes of `out`, and answers how many these are: both
/// plates, the degree or `=`, the side or `-`, and the codes of the row or `-`. An empty row says that no
/// row tells the plates apart.
pub fn write_line<L: CodedLetter>(
    first: u32,
    second: u32,
    side: Side,
    row: &[L],
    out: &mut [u8],
) -> Result<usize, WriteFault>
    ensures { Wrote out.old (line_text first second side (map L.code row.now)) result out.new }
{
    let line = PlatesLine {
        first,
        second,
        side,
        row,
    };
    write_text(&line, out)
}

/// Writes the line of a refusal, `fault N at P`, into the first bytes of `out`, and answers how many these
/// are.
pub fn write_refusal(refusal: Refusal, out: &mut [u8]) -> Result<usize, WriteFault>
    ensures { Wrote out.old (refusal_text refusal.number refusal.place) result out.new }
{
    write_text(&refusal, out)
}
