//! Putting the word of a record on a strip, letter by letter as its codes are read.

ghost use Rattle.std.specs.Prelude.{◌≡◌, List, map};
ghost use Rattle.std.specs.List.{AllByRecursion};
ghost use Rattle.files.specs.Records.{encode_codes};
ghost use Rattle.pairs.specs.Plates.{Loaded};

use files::Letters;
use letters::CodedLetter;
use strips::{Strip, StripFault};

/// Puts the letters of these code bytes on the strip, in place of the word that it has.
pub(crate) fn load<L: CodedLetter>(strip: &mut Strip<'_, L>, codes: &[u8]) -> Result<(), StripFault>
    requires { (w : List L) × AllByRecursion L.InRange w × (codes.now ≡ encode_codes (map L.code w)) }
    ensures { (w : List L) → AllByRecursion L.InRange w → codes.now ≡ encode_codes (map L.code w) → Loaded strip.old w result strip.new }
{
    strip.clear();
    let mut letters = Letters::<L>::over(codes);
    while let Some(letter) = letters.next().unwrap() {
        strip.put(letter)?;
    }
    Ok(())
}
