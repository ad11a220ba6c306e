//! Examples at the edges: of numbers, of records, and each fault once.

use crate::fault::FileFault;
use crate::line::{WriteFault, write_line};
use crate::listing::list;
use crate::number::{Number, NumberFault, read_number};
use crate::reader::Reader;
use crate::word::Letters;
use letters::Mode;
use std::test::Fail;
use words::Side;

#[test]
fn numbers_at_their_edges(rt: HostRuntime) {
    assert_eq!(rt;
        read_number(&[0x7f], 0),
        Ok(Number {
            value: 127,
            next: 1,
        })
    );
    assert_eq!(rt;
        read_number(&[0x81, 0x00], 0),
        Ok(Number {
            value: 128,
            next: 2,
        })
    );
    assert_eq!(rt;
        read_number(&[9, 0xff, 0x7f], 1),
        Ok(Number {
            value: 16_383,
            next: 3,
        })
    );
    assert_eq!(rt;
        read_number(&[0x81, 0x80, 0x00], 0),
        Ok(Number {
            value: 16_384,
            next: 3,
        })
    );
    assert_eq!(rt;
        read_number(&[0xff, 0xff, 0xff, 0x7f], 0),
        Ok(Number {
            value: 268_435_455,
            next: 4,
        })
    );
    assert_eq!(rt; read_number(&[0x80, 0x01], 0), Err(NumberFault::Padded(0)));
    assert_eq!(rt;
        read_number(&[0x81, 0x80, 0x80, 0x80, 0x00], 0),
        Err(NumberFault::TooLong(3))
    );
    assert_eq!(rt; read_number(&[0x81, 0x80], 0), Err(NumberFault::Missing(2)));
    assert_eq!(rt; read_number(&[7], 9), Err(NumberFault::Missing(9)));
}

/// What the first record of these bytes is refused for.
fn first_fault(bytes: &[u8]) -> Option<FileFault> {
    Reader::open(bytes)
        .and_then(|mut reader| reader.next())
        .err()
}

#[test]
fn each_fault_once(rt: HostRuntime) {
    assert_eq!(rt;
        first_fault(&[]),
        Some(FileFault::Number(NumberFault::Missing(0)))
    );
    assert_eq!(rt; first_fault(&[3]), Some(FileFault::UnknownKind(0)));
    assert_eq!(rt;
        first_fault(&[1, 7, 0x80]),
        Some(FileFault::InRecord(NumberFault::Padded(2), 1))
    );
    assert_eq!(rt; first_fault(&[1, 0, 0]), Some(FileFault::PlateNotRising(1)));
    assert_eq!(rt;
        first_fault(&[1, 7, 0xa0, 0x01, 1]),
        Some(FileFault::CountTooLarge(2))
    );
    assert_eq!(rt;
        first_fault(&[1, 7, 0xa0, 0x00]),
        Some(FileFault::InRecord(NumberFault::Missing(4), 1))
    );
    assert_eq!(rt; first_fault(&[1, 7, 1, 25]), Some(FileFault::NotACode(3)));
    assert_eq!(rt; first_fault(&[1, 7, 0]), None);
}

#[test]
fn letters_of_code_bytes(rt: HostRuntime) {
    let mut letters: Letters<Mode> = Letters::over(&[2, 24, 25]);
    assert_eq!(rt; letters.next(), Ok(Mode::new(2)));
    assert_eq!(rt; letters.next(), Ok(Mode::new(24)));
    assert_eq!(rt; letters.next(), Err(FileFault::NotACode(2)));
}

#[test]
fn equal_plates_are_listed_as_a_fault(rt: HostRuntime) -> Result<(), Fail> {
    let text = list(rt.alloc(), &[1, 7, 0, 7, 0])?;
    assert_eq!(rt; text.as_str(), "kind 1 modes\n7:\nfault 22 at 3\n");
    Ok(())
}

#[test]
fn lines_of_two_plates(rt: HostRuntime) -> Result<(), Fail> {
    let (a, b) = (Mode::new(1).ok_or("a")?, Mode::new(2).ok_or("b")?);
    let mut out = [0u8; 16];
    assert_eq!(rt; write_line(7, 8, Side::Left, &[a, a, b], &mut out), Ok(14));
    assert_eq!(rt; out, *b"7 8 2 L 1,1,2\n\0\0");
    let none: [Mode; 0] = [];
    assert_eq!(rt; write_line(8, 200, Side::Right, &none, &mut out), Ok(12));
    assert_eq!(rt; out, *b"8 200 = - -\n2\n\0\0");
    assert_eq!(rt;
        write_line(7, 8, Side::Left, &[a, a, b], &mut out[0..13]),
        Err(WriteFault::NoRoom(0))
    );
    Ok(())
}
