//! Examples at the limits.

use crate::fault::StripFault;
use crate::strip::Strip;
use letters::Tap;
use std::test::Fail;

#[test]
fn letters_come_and_go(rt: HostRuntime) -> Result<(), Fail> {
    let low = Tap::new(1, -120).ok_or("low")?;
    let high = Tap::new(40, 120).ok_or("high")?;
    let mut memory = [low; 2];
    let mut strip = Strip::open(&mut memory);
    assert_eq!(rt; strip.capacity(), 2);
    assert_eq!(rt; strip.take(), Err(StripFault::Empty));
    assert_eq!(rt; strip.put(high), Ok(()));
    assert_eq!(rt; strip.put(low), Ok(()));
    assert_eq!(rt; strip.put(low), Err(StripFault::Full(2)));
    assert_eq!(rt; strip.word().len(), 2);
    assert_eq!(rt; strip.take(), Ok(low));
    assert_eq!(rt; strip.take(), Ok(high));
    assert_eq!(rt; strip.put(low), Ok(()));
    strip.clear();
    assert!(rt; strip.word().is_empty());
    assert_eq!(rt; memory[1], low);
    Ok(())
}

#[test]
fn a_strip_has_64_kinds(rt: HostRuntime) -> Result<(), Fail> {
    let present = Tap::new(1, 0).ok_or("present")?;
    let other = Tap::new(2, 0).ok_or("new")?;
    let mut memory = vec![in rt.alloc(); present; 5000]?;
    let mut strip = Strip::open(memory.as_mut_slice());
    assert_eq!(rt; strip.capacity(), 4096);
    for step in 0..64 {
        assert_eq!(rt; strip.put(Tap::new(1, step).ok_or("tap")?), Ok(()));
    }
    assert_eq!(rt; strip.put(other), Err(StripFault::TooManyKinds(64)));
    assert_eq!(rt; strip.put(present), Ok(()));
    assert_eq!(rt; strip.word().len(), 65);
    Ok(())
}

#[test]
fn faults_show(rt: HostRuntime) -> Result<(), Fail> {
    let fault = StripFault::Full(8);
    let text = format!(in rt.alloc(); "{fault}")?;
    assert_eq!(rt; text.as_str(), "fault 31 at 8");
    Ok(())
}
