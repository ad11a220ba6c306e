//! `wordfile`: reads a word file from standard input and lists what is in it.
#![tactic(auto)]

use files::list;
use std::io;
use std::io::Read;

fn main(rt: HostRuntime) -> io::Result<()> {
    let heap = rt.alloc();
    let mut input = Vec::new(heap);
    rt.stdin().read_to_end(&mut input)?;
    rt.print(list(heap, &input)?)
}
