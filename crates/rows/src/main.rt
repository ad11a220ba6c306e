//! `rows`: reads a word file from standard input and prints, for each plate and the next, by which
//! shortest row of letters they are told apart.
#![tactic(auto)]

use pairs::{LONGEST_FILE, Sink, print_lines};
use std::io;
use std::io::{Read, Write};

/// Standard output, a line at a time.
struct Printer<'a> {
    rt: &'a HostRuntime,
}

// Which lines were printed is no fact about a value: this is where the proofs end.
impl Sink for Printer<'_> {
    ghost took = { λ _ _ _ _. Unit {0} };

    fn take(&mut self, line: &[u8]) -> io::Result<()> {
        self.rt.stdout().write_all(line)
    }
}

fn main(rt: HostRuntime) -> io::Result<()> {
    let mut input = Vec::new(rt.alloc());
    // One byte more than a file may have tells that it is too long. No `u64::from` takes a `usize`.
    rt.stdin()
        .take(LONGEST_FILE as u64 + 1)
        .read_to_end(&mut input)?;
    let mut printer = Printer { rt: &rt };
    let printed = print_lines(&input, &mut printer);
    let Printer { rt: _ } = printer;
    printed
}
