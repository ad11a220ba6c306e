//! The line of two plates whose words are on strips.

ghost use Rattle.words.specs.Letters.{Before};
ghost use Rattle.pairs.specs.Plates.{plate_of};
ghost use Rattle.pairs.specs.Compared.{Compared};

use crate::fault::RunFault;
use crate::plate::PlateOnStrip;
use files::write_line;
use letters::CodedLetter;
use questions::separate;
use words::Side;

/// Tells two plates apart, writes their line into the first bytes of `line`, and answers how many these are.
// The memory comes in its three parts: of a lent struct's `&mut`, nothing but the length is known after a part of it was read.
pub(crate) fn compare<L: CodedLetter>(
    first: PlateOnStrip<'_, L>,
    second: PlateOnStrip<'_, L>,
    row: &mut [L],
    scratch: &mut [u32],
    line: &mut [u8],
) -> Result<usize, RunFault>
    ensures { Compared (Before L.OrderedLetter.order) L.code (plate_of first.entry) (plate_of second.entry) row.old scratch.old line.old result row.new scratch.new line.new }
{
    let told = separate(first.strip, second.strip, row, scratch)?;
    // Where no row tells the plates apart, their line has an empty one, of either side.
    let (length, side) = told.map_or((0, Side::Left), |telling| (telling.length, telling.side));
    let written = write_line(first.number, second.number, side, &row[..length], line)?;
    Ok(written)
}
