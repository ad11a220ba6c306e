//! Examples at the edges of the ranges.

use crate::coded::CodedLetter;
use crate::kind::{Kind, UnknownKind};
use crate::mode::Mode;
use crate::ordered::OrderedLetter;
use crate::tap::Tap;
use std::cmp::Ordering;
use std::test::Fail;

#[test]
fn modes_are_1_to_24(rt: HostRuntime) -> Result<(), Fail> {
    assert_eq!(rt; Mode::new(0), None);
    assert_eq!(rt; Mode::new(25), None);
    assert_eq!(rt; Mode::new(255), None);
    assert_eq!(rt; Mode::new(1).ok_or("1")?.value(), 1);
    assert_eq!(rt; Mode::new(23).ok_or("23")?.value(), 23);
    let last = Mode::new(24).ok_or("24")?;
    assert_eq!(rt; last.code(), 24);
    assert!(rt; last.in_range());
    assert_eq!(rt; Mode::from_code(24), Some(last));
    assert_eq!(rt; Mode::from_code(0), None);
    assert_eq!(rt; Mode::from_code(25), None);
    assert_eq!(rt; Mode::from_code(257), None);
    Ok(())
}

#[test]
fn taps_are_zone_and_step(rt: HostRuntime) -> Result<(), Fail> {
    assert_eq!(rt; Tap::new(0, 0), None);
    assert_eq!(rt; Tap::new(41, 0), None);
    assert_eq!(rt; Tap::new(1, 121), None);
    assert_eq!(rt; Tap::new(1, -121), None);
    let first = Tap::new(1, -120).ok_or("first")?;
    let last = Tap::new(40, 120).ok_or("last")?;
    assert_eq!(rt; first.code(), 0);
    assert_eq!(rt; last.code(), 9639);
    assert_eq!(rt; Tap::from_code(0), Some(first));
    assert_eq!(rt; Tap::from_code(9639), Some(last));
    assert_eq!(rt; Tap::from_code(9640), None);
    assert_eq!(rt; Tap::from_code(u32::MAX), None);
    assert_eq!(rt; last.zone(), 40);
    assert_eq!(rt; last.step(), 120);
    Ok(())
}

#[test]
fn letters_are_ordered(rt: HostRuntime) -> Result<(), Fail> {
    let (low, high) = (Mode::new(2).ok_or("2")?, Mode::new(10).ok_or("10")?);
    assert_eq!(rt; low.compare(high), Ordering::Less);
    assert_eq!(rt; high.compare(high), Ordering::Equal);
    let left = Tap::new(2, 100).ok_or("2:100")?;
    let right = Tap::new(3, -100).ok_or("3:-100")?;
    let lower = Tap::new(3, -101).ok_or("3:-101")?;
    assert_eq!(rt; left.compare(right), Ordering::Less);
    assert_eq!(rt; right.compare(lower), Ordering::Greater);
    Ok(())
}

#[test]
fn kinds_have_numbers(rt: HostRuntime) {
    assert_eq!(rt; Kind::try_from(0), Err(UnknownKind(0)));
    assert_eq!(rt; Kind::try_from(1), Ok(Kind::Modes));
    assert_eq!(rt; Kind::try_from(2), Ok(Kind::Taps));
    assert_eq!(rt; Kind::try_from(3), Err(UnknownKind(3)));
    assert_eq!(rt; u8::from(Kind::Taps), u8::from(Tap::kind()));
    assert!(rt; !Kind::Modes.is_code(25) && Kind::Taps.is_code(25));
}

#[test]
fn letters_show(rt: HostRuntime) -> Result<(), Fail> {
    let heap = rt.alloc();
    let mode = Mode::new(7).ok_or("7")?;
    let tap = Tap::new(12, -35).ok_or("12:-35")?;
    let kind = Tap::kind();
    let text = format!(in heap; "{mode} {tap} {kind}")?;
    assert_eq!(rt; text.as_str(), "7 12:-35 taps");
    Ok(())
}
