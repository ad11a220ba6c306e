//! Digits on two lines, of both cases, and one too many.

use crate::{from_hex, from_lowercase_hex};
use std::test::Fail;

#[test]
fn digits_become_bytes(rt: HostRuntime) -> Result<(), Fail> {
    let bytes = from_hex(rt.alloc(), b"00 1f\na\nB7\n")?;
    assert_eq!(rt; bytes.as_slice(), [0x00, 0x1f, 0xab].as_slice());
    Ok(())
}

#[test]
fn capitals_only_divide(rt: HostRuntime) -> Result<(), Fail> {
    let heap = rt.alloc();
    let text = Vec::from_slice(heap, b"00 1F\na\nB7\n")?;
    let bytes = from_lowercase_hex(heap, text)?;
    assert_eq!(rt; bytes.as_slice(), [0x00, 0x1a].as_slice());
    Ok(())
}
