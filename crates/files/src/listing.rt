//! Listing a word file: what is in it, line by line, as text for people.

ghost use Rattle.std.specs.Prelude.{◌≡◌, ℕ, ◌^◌, ◌<◌, ◌≤◌, List, ◌++◌, length, IfOk, string_bytes, OnOk};
ghost use Rattle.std.specs.List.{AllByRecursion};
ghost use Rattle.letters.specs.declared.kind.Kind.{Kind};
ghost use Rattle.files.specs.Listing.{Listed, codes_text, entry_line};
ghost use Rattle.files.specs.Steps.{RecordsListed};
ghost use Rattle.files.specs.Records.{Entry, Allowed, Shows, encode_codes};

use crate::number::{Number, read_number};
use crate::reader::{Reader, Record};
use std::alloc::{AllocError, Global};

/// Adds the codes in `bytes`, a space before each.
fn push_codes(text: &mut String, bytes: &[u8]) -> Result<(), AllocError>
    ensures { OnOk result ((cs : List ℕ) → AllByRecursion (λ n. n < 2 ^ 28) cs → bytes.now ≡ encode_codes cs → string_bytes text.new ≡ string_bytes text.old ++ codes_text cs) }
{
    let mut at = 0;
    while let Ok(Number { value, next }) = read_number(bytes, at) {
        write!(text, " {value}")?;
        at = next;
    }
    Ok(())
}

/// Adds the line of a record.
fn push_record(text: &mut String, item: Record<'_>) -> Result<(), AllocError>
    ensures { OnOk result ((k : Kind) (last place : ℕ) (e : Entry) → Allowed k last e → Shows e place item.entry → string_bytes text.new ≡ string_bytes text.old ++ entry_line e) }
{
    let plate = item.plate;
    write!(text, "{plate}:")?;
    push_codes(text, item.codes)?;
    writeln!(text)
}

/// Adds the records that the reader has before it, and the totals or the fault that ends them.
fn push_records(text: &mut String, reader: &mut Reader<'_>) -> Result<(), AllocError>
    ensures { OnOk result (reader.old.last ≡ 0 → reader.old.at ≤ length reader.old.bytes.now → (out : List ℕ) × RecordsListed reader.old.kind reader.old.bytes.now reader.old.at out × (string_bytes text.new ≡ string_bytes text.old ++ out)) }
{
    let mut plates = 0u64;
    let mut letters = 0u64;
    loop {
        match reader.next() {
            Ok(Some(record)) => {
                push_record(text, record)?;
                plates += 1;
                letters += u64::from(record.count);
            }
            Ok(None) => {
                let bytes = reader.place();
                return writeln!(text, "# {plates} plates, {letters} letters, {bytes} bytes");
            }
            Err(fault) => return writeln!(text, "{fault}"),
        }
    }
}

/// Lists the word file in `bytes`: its kind, a line for each record, and last how much was read, or
/// the first fault.
pub fn list(heap: Global, bytes: &[u8]) -> Result<String, AllocError>
    ensures { IfOk result (λ t. Listed bytes.now (string_bytes t)) }
{
    match Reader::open(bytes) {
        Ok(mut reader) => {
            let kind = reader.kind();
            let number = u8::from(kind);
            let mut text = format!(in heap; "kind {number} {kind}\n")?;
            push_records(&mut text, &mut reader)?;
            Ok(text)
        }
        Err(fault) => format!(in heap; "{fault}\n"),
    }
}
