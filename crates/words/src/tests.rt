//! Forms and telling rows of short words, and what is refused.

use crate::fault::WordFault;
use crate::forming::{form, form_in_place};
use crate::separating::separate;
use crate::told::{Side, Telling};
use letters::Mode;
use std::test::Fail;

#[test]
fn the_form_is_the_earliest_word(rt: HostRuntime) -> Result<(), Fail> {
    let a = Mode::new(1).ok_or("a")?;
    let b = Mode::new(2).ok_or("b")?;
    let c = Mode::new(3).ok_or("c")?;
    let word = [b, a, b, a, a, b, a, c, a, a, b, b, a];
    let mut out = [c; 13];
    let mut scratch = [0; 224];
    assert_eq!(rt; form(&word, 2, &mut out, &mut scratch), Ok(5));
    assert_eq!(rt; out, [a, b, c, a, b, c, c, c, c, c, c, c, c]);
    Ok(())
}

#[test]
fn at_0_it_is_empty_and_far_up_the_word_itself(rt: HostRuntime) -> Result<(), Fail> {
    let a = Mode::new(1).ok_or("a")?;
    let b = Mode::new(2).ok_or("b")?;
    let mut word = [b, a, b, a];
    let mut scratch = [0; 80];
    assert_eq!(rt; form_in_place(&mut word, 4, &mut scratch), Ok(4));
    assert_eq!(rt; word, [b, a, b, a]);
    assert_eq!(rt; form_in_place(&mut word, 0, &mut scratch), Ok(0));
    assert_eq!(rt; word, [b, a, b, a]);
    assert_eq!(rt; form_in_place(&mut word, 1, &mut scratch), Ok(2));
    assert_eq!(rt; word, [a, b, b, a]);
    Ok(())
}

#[test]
fn too_little_memory_is_refused(rt: HostRuntime) -> Result<(), Fail> {
    let a = Mode::new(1).ok_or("a")?;
    let mut word = [a, a];
    let mut out = [a];
    let mut scratch = [7; 48];
    assert_eq!(rt;
        form(&word, 1, &mut out, &mut scratch[0..47]),
        Err(WordFault::Scratch(48))
    );
    assert_eq!(rt;
        form(&word, 1, &mut out, &mut scratch),
        Err(WordFault::Output(2))
    );
    assert_eq!(rt; scratch, [7; 48]);
    assert_eq!(rt; form_in_place(&mut word, 1, &mut scratch), Ok(1));
    Ok(())
}

#[test]
fn the_first_telling_row_is_the_earliest_of_the_shortest(rt: HostRuntime) -> Result<(), Fail> {
    let a = Mode::new(1).ok_or("a")?;
    let b = Mode::new(2).ok_or("b")?;
    let c = Mode::new(3).ok_or("c")?;
    let mut row = [c; 5];
    let mut scratch = [0; 160];
    let left = separate(&[b, a, b, a], &[a, b, a, b], &mut row, &mut scratch);
    assert_eq!(rt;
        left,
        Ok(Some(Telling {
            length: 3,
            side: Side::Right,
        }))
    );
    assert_eq!(rt; row, [a, a, b, c, c]);
    let right = separate(&[a, b], &[b, b, a, a, b], &mut row, &mut scratch);
    assert_eq!(rt;
        right,
        Ok(Some(Telling {
            length: 2,
            side: Side::Right,
        }))
    );
    assert_eq!(rt; row, [a, a, b, c, c]);
    let longer = separate(&[a, b, a], &[a, b], &mut row, &mut scratch);
    assert_eq!(rt;
        longer,
        Ok(Some(Telling {
            length: 2,
            side: Side::Left,
        }))
    );
    assert_eq!(rt; row, [a, a, b, c, c]);
    Ok(())
}

#[test]
fn equal_words_have_no_telling_row(rt: HostRuntime) -> Result<(), Fail> {
    let a = Mode::new(1).ok_or("a")?;
    let b = Mode::new(2).ok_or("b")?;
    let mut row = [b; 3];
    let mut scratch = [0; 96];
    assert_eq!(rt;
        separate(&[a, b], &[a, b], &mut row, &mut scratch),
        Ok(None)
    );
    assert_eq!(rt; row, [b, b, b]);
    let none = separate(&[a; 0], &[a; 0], &mut row, &mut scratch);
    assert_eq!(rt; none, Ok(None));
    let one = separate(&[a; 0], &[a], &mut row, &mut scratch);
    assert_eq!(rt;
        one,
        Ok(Some(Telling {
            length: 1,
            side: Side::Right,
        }))
    );
    assert_eq!(rt; row, [a, b, b]);
    Ok(())
}

#[test]
fn separate_refuses_too_little_memory(rt: HostRuntime) -> Result<(), Fail> {
    let a = Mode::new(1).ok_or("a")?;
    let mut row = [a; 1];
    let mut scratch = [7; 96];
    assert_eq!(rt;
        separate(&[a, a], &[a, a], &mut row, &mut scratch[0..95]),
        Err(WordFault::Scratch(96))
    );
    assert_eq!(rt;
        separate(&[a, a], &[a, a], &mut row, &mut scratch),
        Err(WordFault::Output(3))
    );
    assert_eq!(rt;
        separate(&[a; 4097], &[a], &mut row, &mut scratch),
        Err(WordFault::TooLong)
    );
    assert_eq!(rt; scratch, [7; 96]);
    Ok(())
}
