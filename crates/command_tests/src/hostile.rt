//! Yards and logs that nobody writes by mistake, in pieces of four bytes.

use super::checks::{FIRST, SQUARES};
use super::failing::{bytes_of, ends};
use super::failing_check::says;
use super::yards::*;
use std::test::Fail;
use yard_io::DeskCall;

/// A plate that is closed on a day that 16 bits do not hold.
const CLOSED_LATE: &str = "[[plate]]\nname = \"P\"\nwidth = 4\nheight = 3\nclosed = [70000]\n";

/// A footprint with a coordinate that 32 bits do not hold.
const FAR_POINT: &str = "shape = [[1000000000000, 0],[2,0],[2,2],[0,2]]\n";

/// To make a file fresh would fail, and so would have ended the run with status 5.
#[test]
fn hostile_yards_are_refused(rt: HostRuntime) -> Result<(), Fail> {
    let rows: [(&[&str], &str); 2] = [
        (
            &[TEN_DAYS, CLOSED_LATE, A, SQUARE_2, TWO_DAYS_DUE_1],
            "refused yard 14 Day plate 0 Range 0\n",
        ),
        (
            &[TEN_DAYS, PLATE_4X3, A, FAR_POINT, TWO_DAYS_DUE_1],
            "refused yard 15 Shape block 0 Range 0\n",
        ),
    ];
    for (parts, said) in rows {
        let yard = bytes_of(rt.alloc(), parts)?;
        let (ended, desk) = ends(&rt, yard.as_slice(), DeskCall::Fresh, 0)?;
        assert_eq!(rt; ended, 1, "at {said}");
        assert_eq!(rt; desk.said(), said.as_bytes(), "at {said}");
        assert_eq!(rt; desk.file("l"), None, "at {said}");
    }
    Ok(())
}

/// The first read would fail, and so would have ended the run with status 4.
#[test]
fn a_yard_made_too_long_by_a_comment_is_not_read(rt: HostRuntime) -> Result<(), Fail> {
    let mut yard = bytes_of(
        rt.alloc(),
        &[TEN_DAYS, PLATE_4X3, A, SQUARE_2, TWO_DAYS_DUE_1],
    )?;
    let comment = vec![in rt.alloc(); b'#'; 1_048_576]?;
    yard.extend_from_slice(comment.as_slice())?;
    let (ended, desk) = ends(&rt, yard.as_slice(), DeskCall::Read, 0)?;
    assert_eq!(rt; ended, 1);
    assert_eq!(rt; desk.said(), b"refused yard 1 TooLong\n".as_slice());
    assert_eq!(rt; desk.file("l"), None);
    Ok(())
}

#[test]
fn logs_of_one_record_are_refused(rt: HostRuntime) -> Result<(), Fail> {
    let yard = bytes_of(rt.alloc(), SQUARES)?;
    let rows = [
        ("branch 0 0 18 - 0", 7, "not certified 2 BadCite 0 0\n"),
        ("branch 0 18 0 - -", 1, "refused log 2 Line 2\n"),
        ("branch 0 5 5 - -", 7, "not certified 6 BadForm 0\n"),
        ("branch 00 0 18 - -", 1, "refused log 2 Line 2\n"),
        ("fit 0:1,0:2", 1, "refused log 2 Line 2\n"),
        ("fit 0:18", 7, "not certified 6 BadForm 0\n"),
        ("energy 0 9 -", 7, "not certified 4 BoundLow 0 0\n"),
        ("energy 0 10 -", 7, "not certified 6 BadForm 0\n"),
    ];
    for (record, status, said) in rows {
        let log = format!(in rt.alloc(); "log 1\n{record}\nend\n")?;
        says(
            &rt,
            yard.as_slice(),
            FIRST.as_bytes(),
            log.as_bytes(),
            status,
            said.as_bytes(),
        )?;
    }
    Ok(())
}
