//! One step of a run over a file: the next plate is read, and its line is written.

ghost use Rattle.words.specs.Letters.{Before};
ghost use Rattle.pairs.specs.Plates.{plate_of};
ghost use Rattle.pairs.specs.Steps.{StepAnswer};

use crate::comparing::compare;
use crate::fault::RunFault;
use crate::memory::Memory;
use crate::plate::{PlateOnStrip, read_plate};
use files::Reader;
use letters::CodedLetter;
use strips::Strip;

/// The plate that was read, and how many bytes its line has.
#[derive(Clone, Copy, PartialEq, Eq, Debug)]
pub struct NextLine {
    pub plate: u32,
    pub length: usize,
}

/// Reads the next plate onto the strip `later` and writes the line that tells the plate `earlier` from
/// it into the first bytes of the memory's; none at the end of the file.
pub fn step<L: CodedLetter>(
    reader: &mut Reader<'_>,
    earlier: PlateOnStrip<'_, L>,
    later: &mut Strip<'_, L>,
    memory: &mut Memory<'_, L>,
) -> Result<Option<NextLine>, RunFault>
    ensures { StepAnswer (Before L.OrderedLetter.order) L.kind L.InRange L.code reader.old (plate_of earlier.entry) later.old memory.old result reader.new later.new memory.new }
{
    let read = read_plate(reader, later)?;
    let Some(plate) = read else {
        return Ok(None);
    };
    let read = PlateOnStrip {
        number: plate,
        strip: later,
    };
    let length = compare(earlier, read, memory.row, memory.scratch, memory.line)?;
    Ok(Some(NextLine { plate, length }))
}
