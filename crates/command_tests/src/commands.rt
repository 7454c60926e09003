//! Runs over desks in memory, and one over the real files. The texts of the rows are worked by hand.
ghost use Rattle.std.specs.Prelude.{◌≡◌};

use crate::twelve_blocks;
use crate::unread::UnreadDesk;
use crate::yards::*;
use code_table::placement_count;
use scheduler_run::{Status, run, run_quietly};
use std::test::Fail;
use std::thread::Threads;
use yard_file::read_yard;
use yard_io::{OpenGate, QuietDesk, RealDesk};

const USAGE: &str =
    "usage: plan YARD LOG WORKERS SPLIT | check YARD PLAN LOG | gen SEED BLOCKS | load SEED BLOCKS WORKERS\n";

const NOT_TOML: &str = "refused yard 2 NotToml\n";

/// The words of a plan by one worker.
pub(crate) const PLAN: &[&str] = &["plan", "y", "l", "1", "0"];

#[test]
fn words_and_bytes(rt: HostRuntime) -> Result<(), Fail> {
    let cases: [(&[&str], &[u8], u8, &str); 27] = [
        (&[], b"", 2, USAGE),
        (&["plan"], b"", 2, USAGE),
        (&["plan", "y"], b"", 2, USAGE),
        (&["plan", "y", "l", "0", "3"], b"", 2, USAGE),
        (&["plan", "y", "l", "01", "3"], b"", 2, USAGE),
        (&["plan", "y", "l", "17", "3"], b"", 2, USAGE),
        (&["plan", "y", "l", "1", "21"], b"", 2, USAGE),
        (&["plan", "y", "l", "1", ""], b"", 2, USAGE),
        (&["plan", "y", "y", "1", "0"], b"", 2, USAGE),
        (&["check", "y", "p"], b"", 2, USAGE),
        (&["check", "y", "p", "l", "m"], b"", 2, USAGE),
        (&["gen", "1"], b"", 2, USAGE),
        (&["gen", "1", "0"], b"", 2, USAGE),
        (&["gen", "1", "33"], b"", 2, USAGE),
        (&["gen", "2147483648", "1"], b"", 2, USAGE),
        (&["gen", "01", "1"], b"", 2, USAGE),
        (&["gen", "+1", "1"], b"", 2, USAGE),
        (&["load", "1", "1"], b"", 2, USAGE),
        (&["load", "1", "0", "1"], b"", 2, USAGE),
        (&["load", "1", "33", "1"], b"", 2, USAGE),
        (&["load", "1", "1", "0"], b"", 2, USAGE),
        (&["load", "1", "1", "17"], b"", 2, USAGE),
        (&["load", "2147483648", "1", "1"], b"", 2, USAGE),
        (&["load", "1", "1", "01"], b"", 2, USAGE),
        (PLAN, b"version = 1\ndays = ", 1, NOT_TOML),
        (PLAN, b"version = \xff\n", 1, NOT_TOML),
        (
            PLAN,
            b"version = 1\ndays = 10\n",
            1,
            "refused yard 8 NoPlate\n",
        ),
    ];
    for (words, bytes, status, said) in cases {
        let Ok(mut desk) = QuietDesk::new(rt.alloc(), 4) else {
            assert!(rt; false);
            return Ok(());
        };
        assert!(rt; desk.put("y", bytes).is_ok());
        let ended = run_quietly(&rt, rt.alloc(), words, &mut desk);
        assert_eq!(rt; ended.0, status, "at {said}");
        assert_eq!(rt; desk.said(), said.as_bytes(), "at {said}");
        assert_eq!(rt; desk.file("l"), None, "at {said}");
    }
    Ok(())
}

/// The status, and whether the text was said, for the yard that these parts make; None where there is an answer and `check`
/// does not certify the text with the log.
fn says<R: Threads + Sync + AllocGlobal>(rt: &R, parts: &[&str], said: &str) -> Option<(u8, bool)> {
    says_to(rt, PLAN, parts, said)
}

/// The same for these words of a plan.
pub(crate) fn says_to<R: Threads + Sync + AllocGlobal>(
    rt: &R,
    words: &[&str],
    parts: &[&str],
    said: &str,
) -> Option<(u8, bool)> {
    let mut yard = Vec::new(rt.alloc());
    for part in parts {
        yard.extend_from_slice(part.as_bytes()).ok()?;
    }
    let mut desk = QuietDesk::new(rt.alloc(), 64).ok()?;
    desk.put("y", yard.as_slice()).ok()?;
    let ended = run_quietly(rt, rt.alloc(), words, &mut desk);
    let is_said = desk.said() == said.as_bytes();
    if ended.0 != 1 {
        desk.put("p", said.as_bytes()).ok()?;
        let certified = run_quietly(rt, rt.alloc(), &["check", "y", "p", "l"], &mut desk);
        if certified.0 != 0 {
            return None;
        }
    }
    Some((ended.0, is_said))
}

const ONE_SQUARE: &str = "plan 1
block A plate P turn 0 x 0 y 0 start 0 end 1 tardiness 0
total 0
";

#[test]
fn one_block(rt: HostRuntime) -> Result<(), Fail> {
    let cases: [(&[&str], u8, &str); 8] = [
        (
            &[LONG, PLATE_64X64, A, CELL, ONE_DAY_DUE_1],
            0,
            "plan 1
block A plate P turn 0 x 0 y 0 start 0 end 0 tardiness 0
total 0
",
        ),
        (
            &[LONG, PLATE_64X65, A, CELL, ONE_DAY_DUE_1],
            1,
            "refused yard 17 TooManyPlacements 0 1064960\n",
        ),
        (
            &[TEN_DAYS, PLATE_4X3, A, SQUARE_2, TWO_DAYS_DUE_1],
            0,
            ONE_SQUARE,
        ),
        (
            &[TEN_DAYS, PLATE_4X3, A, SQUARE_2_CLOCKWISE, TWO_DAYS_DUE_1],
            0,
            ONE_SQUARE,
        ),
        (
            &[TEN_DAYS, PLATE_1X3, A, SQUARE_2, TWO_DAYS_DUE_1],
            3,
            "no plan\n",
        ),
        (
            &[TEN_DAYS, PLATE_4X3, A, NOT_CONVEX, TWO_DAYS_DUE_1],
            1,
            "refused yard 15 Shape block 0 NotConvex 0 3\n",
        ),
        (
            &[TEN_DAYS, PLATE_CLOSED, A, SQUARE_2, FROM_4],
            0,
            "plan 1
block A plate P turn 0 x 0 y 0 start 4 end 6 tardiness 0
total 0
",
        ),
        (
            &[TEN_DAYS, PLATE_CLOSED, A, SQUARE_2, FROM_5],
            0,
            "plan 1
block A plate P turn 0 x 0 y 0 start 6 end 7 tardiness 1
total 1
",
        ),
    ];
    for (parts, status, said) in cases {
        assert_eq!(rt; says(&rt, parts, said), Some((status, true)), "at {said}");
    }
    Ok(())
}

#[test]
fn several_blocks(rt: HostRuntime) -> Result<(), Fail> {
    let cases: [(&[&str], u8, &str); 6] = [
        (
            &[
                TEN_DAYS,
                PLATE_4X3,
                A,
                SQUARE_3,
                TWO_DAYS_DUE_1,
                "weight = 5\n",
                B,
                SQUARE_3,
                TWO_DAYS_DUE_1,
                "weight = 5\n",
            ],
            0,
            "plan 1
block A plate P turn 0 x 0 y 0 start 0 end 1 tardiness 0
block B plate P turn 0 x 0 y 0 start 2 end 3 tardiness 2
total 10
",
        ),
        (
            &[
                TEN_DAYS,
                PLATE_4X3,
                A,
                SQUARE_3,
                TWO_DAYS_DUE_1,
                B,
                SQUARE_3,
                TWO_DAYS_DUE_1,
                "weight = 5\n",
            ],
            0,
            "plan 1
block A plate P turn 0 x 0 y 0 start 2 end 3 tardiness 2
block B plate P turn 0 x 0 y 0 start 0 end 1 tardiness 0
total 2
",
        ),
        (
            &[
                ONE_DAY,
                PLATE_4X4,
                A,
                TRIANGLE,
                HALF_TURN,
                ONE_DAY_DUE_0,
                B,
                TRIANGLE,
                HALF_TURN,
                ONE_DAY_DUE_0,
            ],
            0,
            "plan 1
block A plate P turn 0 x 0 y 0 start 0 end 0 tardiness 0
block B plate P turn 2 x 0 y 0 start 0 end 0 tardiness 0
total 0
",
        ),
        (
            &[
                ONE_DAY,
                PLATE_4X4,
                A,
                TRIANGLE,
                ONE_DAY_DUE_0,
                B,
                TRIANGLE,
                ONE_DAY_DUE_0,
            ],
            3,
            "no plan\n",
        ),
        (
            &[
                TEN_DAYS,
                PLATE_3X2,
                A,
                SQUARE_2,
                TWO_DAYS_DUE_1,
                "weight = 2\n",
                B,
                COLUMN,
                TWO_DAYS_DUE_1,
                "weight = 3\n",
                C,
                CELL,
                ONE_DAY_DUE_1,
                "weight = 4\n",
            ],
            0,
            "plan 1
block A plate P turn 0 x 0 y 0 start 1 end 2 tardiness 1
block B plate P turn 0 x 2 y 0 start 0 end 1 tardiness 0
block C plate P turn 0 x 0 y 0 start 0 end 0 tardiness 0
total 2
",
        ),
        (
            &[
                TWO_DAYS,
                PLATE_3X2,
                A,
                SQUARE_2,
                TWO_DAYS_DUE_1,
                "weight = 2\n",
                B,
                COLUMN,
                TWO_DAYS_DUE_1,
                "weight = 3\n",
                C,
                CELL,
                ONE_DAY_DUE_1,
                "weight = 4\n",
            ],
            3,
            "no plan\n",
        ),
    ];
    for (parts, status, said) in cases {
        assert_eq!(rt; says(&rt, parts, said), Some((status, true)), "at {said}");
    }
    Ok(())
}

/// Three blocks need 13 cells and days of the 12 of the two days: one energy refutes every plan.
#[test]
fn one_energy_refutes_every_plan(rt: HostRuntime) -> Result<(), Fail> {
    let parts = [
        TWO_DAYS,
        PLATE_3X2,
        A,
        SQUARE_2,
        TWO_DAYS_DUE_1,
        B,
        COLUMN,
        TWO_DAYS_DUE_1,
        C,
        CELL,
        ONE_DAY_DUE_1,
    ];
    let mut yard = Vec::new(rt.alloc());
    for part in parts {
        yard.extend_from_slice(part.as_bytes())?;
    }
    let Ok(mut desk) = QuietDesk::new(rt.alloc(), 64) else {
        assert!(rt; false);
        return Ok(());
    };
    assert!(rt; desk.put("y", yard.as_slice()).is_ok());
    assert_eq!(rt; run_quietly(&rt, rt.alloc(), PLAN, &mut desk), Status(3));
    assert_eq!(rt;
        desk.file("l"),
        Some(b"log 1\nenergy 0 1 -\nend\n".as_slice())
    );
    Ok(())
}

#[test]
fn long_file_is_not_read(rt: HostRuntime) -> Result<(), Fail> {
    let mut desk = UnreadDesk::new(rt.alloc(), 1_048_577);
    let ended = run(&rt, rt.alloc(), PLAN, &mut desk, &OpenGate);
    assert_eq!(rt; ended, Status(1));
    assert_eq!(rt; desk.said(), b"refused yard 1 TooLong\n".as_slice());
    Ok(())
}

#[test]
fn a_read_fault_says_nothing(rt: HostRuntime) {
    let mut desk = UnreadDesk::new(rt.alloc(), 10);
    let ended = run(&rt, rt.alloc(), PLAN, &mut desk, &OpenGate);
    assert_eq!(rt; ended, Status(4));
    assert_eq!(rt; desk.said().len(), 0);
}

#[test]
fn missing_file_is_a_read_fault(rt: HostRuntime) -> Result<(), Fail> {
    let mut desk = RealDesk::new(&rt);
    let ended = run(
        &rt,
        rt.alloc(),
        &["plan", "no such file", "no such log", "1", "0"],
        &mut desk,
        &OpenGate,
    );
    assert_eq!(rt; ended, Status(4));
    Ok(())
}

#[test]
fn twelve_blocks_on_three_plates(rt: HostRuntime) {
    let said = says(&rt, &[twelve_blocks::YARD], twelve_blocks::PLAN);
    assert_eq!(rt; said, Some((0, true)));
    match read_yard(rt.alloc(), twelve_blocks::YARD.as_bytes()) {
        Ok(yard) => {
            for block in 0..yard.blocks().len() {
                assert!(rt; placement_count(&yard, block as u8) <= 14_256, "at {block}");
            }
        }
        Err(_) => assert!(rt; false, "the yard is read"),
    }
}
