//! `listings`: lists each file of a table and compares the text with the one that is expected.
//!
//! The folder that it is run in has a file `index` with a name to a line, and for each NAME the bytes
//! of a word file as hexadecimal digits, `NAME.hex`, and its listing, `NAME.list`.
#![tactic(auto)]

use files::list;
use hexdump::from_lowercase_hex;
use std::{fs, io};

/// Is the file of this name listed as expected?
fn matches(rt: &HostRuntime, name: &str) -> io::Result<bool> {
    let heap = rt.alloc();
    let hex = fs::read(rt, format!(in heap; "{name}.hex")?)?;
    let expected = fs::read_to_string(rt, format!(in heap; "{name}.list")?)?;
    let bytes = from_lowercase_hex(heap, hex)?;
    let text = list(heap, &bytes)?;
    Ok(text == expected)
}

fn main(rt: HostRuntime) -> io::Result<()> {
    let index = fs::read_to_string(&rt, "index")?;
    for name in index.lines() {
        let result = if matches(&rt, name)? {
            "as expected"
        } else {
            "DIFFERS"
        };
        println!(rt; "{name}: {result}")?;
    }
    Ok(())
}
