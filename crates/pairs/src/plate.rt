//! Reading the next plate of a file onto a strip.

ghost use Rattle.pairs.specs.Plates.{PlateAnswer};

use crate::fault::RunFault;
use crate::loading::load;
use files::{FileFault, Reader};
use letters::CodedLetter;
use strips::Strip;

/// A plate whose word is on a strip.
#[derive(Clone, Copy)]
pub struct PlateOnStrip<'a, L> {
    pub number: u32,
    pub strip: &'a Strip<'a, L>,
}

/// Reads the next plate, puts its word on the strip in place of what that had, and answers its number;
/// none at the end of the file.
pub fn read_plate<L: CodedLetter>(
    reader: &mut Reader<'_>,
    strip: &mut Strip<'_, L>,
) -> Result<Option<u32>, RunFault>
    ensures { PlateAnswer L.kind L.InRange L.code reader.old strip.old result reader.new strip.new }
{
    if reader.kind() != L::kind() {
        return Err(RunFault::File(FileFault::UnknownKind(0)));
    }
    let next = reader.next()?;
    let Some(record) = next else {
        return Ok(None);
    };
    load(strip, record.codes).map_err(|fault| RunFault::Record(fault, record.place))?;
    Ok(Some(record.plate))
}
