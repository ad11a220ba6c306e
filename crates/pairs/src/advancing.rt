//! One step of a run with its printing: the next plate's line.

ghost use Rattle.words.specs.Letters.{Before};
ghost use Rattle.pairs.specs.Plates.{plate_of};
ghost use Rattle.pairs.specs.Memories.{Room};
ghost use Rattle.pairs.specs.Steps.{Standing, Advanced};

use crate::memory::Memory;
use crate::plate::PlateOnStrip;
use crate::sink::Sink;
use crate::stepping::step;
use crate::stop::Stop;
use files::Reader;
use letters::CodedLetter;
use strips::Strip;

/// Reads the next plate onto `later` and prints the line that tells the plate `earlier` from it; answers
/// its number, or none at the end of the file.
pub(crate) fn advance<L: CodedLetter, S: Sink>(
    reader: &mut Reader<'_>,
    earlier: PlateOnStrip<'_, L>,
    later: &mut Strip<'_, L>,
    memory: &mut Memory<'_, L>,
    sink: &mut S,
) -> Result<Option<u32>, Stop>
    requires room { Room memory.old }
    requires standing { Standing L.kind L.InRange reader.old earlier.strip.now later.old }
    ensures answer { Advanced (Before L.OrderedLetter.order) L.kind L.InRange L.code S.took reader.old (plate_of earlier.entry) later.old sink.old result reader.new later.new sink.new }
    ensures room { Room memory.new }
{
    let stepped = step(reader, earlier, later, memory)?;
    let Some(next) = stepped else {
        return Ok(None);
    };
    sink.take(&memory.line[..next.length])?;
    Ok(Some(next.plate))
}
