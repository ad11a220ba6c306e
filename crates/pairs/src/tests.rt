//! A step, and the same with memory that is one short.

use crate::fault::RunFault;
use crate::memory::Memory;
use crate::plate::{PlateOnStrip, read_plate};
use crate::stepping::{NextLine, step};
use files::{Reader, WriteFault};
use letters::Mode;
use questions::QuestionFault;
use std::process::Abort;
use std::test::Fail;
use strips::Strip;

/// A step from plate 7, whose word is a, to plate 8, whose word is b, in so much memory.
fn step_in(
    rt: &impl Abort,
    row: &mut [Mode],
    scratch: &mut [u32],
    line: &mut [u8],
) -> Result<Result<Option<NextLine>, RunFault>, Fail> {
    let mut reader = Reader::open(&[1, 7, 1, 1, 8, 1, 2])?;
    let a = Mode::new(1).ok_or("a")?;
    let mut left_letters = [a];
    let mut right_letters = [a];
    let mut left = Strip::open(&mut left_letters);
    let mut right = Strip::open(&mut right_letters);
    assert_eq!(rt; read_plate(&mut reader, &mut left), Ok(Some(7)));
    let seven = PlateOnStrip {
        number: 7,
        strip: &left,
    };
    let mut memory = Memory { row, scratch, line };
    Ok(step(&mut reader, seven, &mut right, &mut memory))
}

#[test]
fn a_step_wants_memory(rt: HostRuntime) -> Result<(), Fail> {
    let a = Mode::new(1).ok_or("a")?;
    let mut line = [0; 10];
    let told = step_in(&rt, &mut [a; 2], &mut [0; 64], &mut line)?;
    assert_eq!(rt;
        told,
        Ok(Some(NextLine {
            plate: 8,
            length: 10,
        }))
    );
    assert!(rt; &line == b"7 8 0 L 1\n");
    let scratch = step_in(&rt, &mut [a; 2], &mut [0; 63], &mut line)?;
    assert_eq!(rt;
        scratch,
        Err(RunFault::Question(QuestionFault::Scratch(64)))
    );
    let row = step_in(&rt, &mut [a; 1], &mut [0; 64], &mut line)?;
    assert_eq!(rt; row, Err(RunFault::Question(QuestionFault::Output(2))));
    let room = step_in(&rt, &mut [a; 2], &mut [0; 64], &mut [0; 9])?;
    assert_eq!(rt; room, Err(RunFault::Write(WriteFault::NoRoom(0))));
    Ok(())
}
