//! `cases`: runs two tables of word files against the code: what each file's listing is, and which lines
//! tell its plates apart.
//!
//! The folder that it is run in has a folder for each table, with a file `index` that has a name to a line,
//! and for each NAME the bytes of a word file as hexadecimal digits, `NAME.hex`, and the text that is
//! expected, `NAME.list` or `NAME.out`.
#![tactic(auto)]

use files::list;
use hexdump::from_lowercase_hex;
use pairs::text_of;
use std::alloc::Global;
use std::{fs, io};

/// Says of each word file of the table in this folder whether the text that is made of it is the one that
/// is expected, which stands in a file with this ending.
fn run_table<F: Fn(Global, &[u8]) -> io::Result<Vec<u8>>>(
    rt: &HostRuntime,
    folder: &str,
    ending: &str,
    make: F,
) -> io::Result<()>
    requires { F.IsAlwaysCallable make }
{
    let heap = rt.alloc();
    let index = fs::read_to_string(rt, format!(in heap; "{folder}/index")?)?;
    for name in index.lines() {
        let expected = fs::read(rt, format!(in heap; "{folder}/{name}.{ending}")?)?;
        let hex = fs::read(rt, format!(in heap; "{folder}/{name}.hex")?)?;
        let text = make(heap, &from_lowercase_hex(heap, hex)?)?;
        let result = if text == expected {
            "as expected"
        } else {
            "DIFFERS"
        };
        println!(rt; "{folder}/{name}: {result}")?;
    }
    Ok(())
}

fn main(rt: HostRuntime) -> io::Result<()> {
    run_table(
        &rt,
        "files",
        "list",
        |heap, bytes| Ok(list(heap, bytes)?.into_bytes()),
    )?;
    run_table(&rt, "rows", "out", |heap, bytes| text_of(heap, bytes))
}
