//! What `check` says of the plans and logs of small yards, worked by hand.

use super::unread::UnreadDesk;
use super::yards::*;
use scheduler_run::{Status, run, run_quietly};
use std::test::Fail;
use std::thread::Threads;
use yard_io::{OpenGate, QuietDesk};

/// The parts of a yard, a plan, a log, and the status and what is said.
type Row<'a> = (&'a [&'a str], &'a str, &'a str, u8, &'a str);

/// Two squares that share a plate in turn.
pub const SQUARES: &[&str] = &[
    TEN_DAYS,
    PLATE_4X3,
    A,
    SQUARE_3,
    TWO_DAYS_DUE_1,
    "weight = 5\n",
    B,
    SQUARE_3,
    TWO_DAYS_DUE_1,
    "weight = 5\n",
];

/// Two triangles on one plate and one day, neither of which may be turned.
const TRIANGLES: &[&str] = &[
    ONE_DAY,
    PLATE_4X4,
    A,
    TRIANGLE,
    ONE_DAY_DUE_0,
    B,
    TRIANGLE,
    ONE_DAY_DUE_0,
];

/// A square that is wider than its plate.
const NARROW: &[&str] = &[TEN_DAYS, PLATE_1X3, A, SQUARE_2, TWO_DAYS_DUE_1];

/// The best plan of the squares: the first of the list stands first.
pub const FIRST: &str = "plan 1
block A plate P turn 0 x 0 y 0 start 0 end 1 tardiness 0
block B plate P turn 0 x 0 y 0 start 2 end 3 tardiness 2
total 10
";

/// The other plan of the same total.
const SECOND: &str = "plan 1
block A plate P turn 0 x 0 y 0 start 2 end 3 tardiness 2
block B plate P turn 0 x 0 y 0 start 0 end 1 tardiness 0
total 10
";

/// Both squares at once.
const BOTH: &str = "plan 1
block A plate P turn 0 x 0 y 0 start 0 end 1 tardiness 0
block B plate P turn 0 x 1 y 0 start 0 end 1 tardiness 0
total 0
";

/// The log of the squares: beside each of the codes 0 to 3 of the first block every code of the second is refuted, and
/// later codes cost too much or come later.
pub const FIVE: &str = "log 1
branch 1 0 18 0:0 -
branch 1 0 18 0:1 -
branch 1 0 18 0:2 -
branch 1 0 18 0:3 -
branch 0 0 18 - 0,1,2,3
end
";

/// The best plan of one square.
const ONE: &[&str] = &[TEN_DAYS, PLATE_4X3, A, SQUARE_2, TWO_DAYS_DUE_1];

/// A log of one square on its 54 codes, the first of which is the best.
const ALL: &str = "log 1\nbranch 0 0 54 - -\nend\n";

/// The status of `check` on the texts, and whether it said this.
fn checks<R: Threads + Sync + AllocGlobal>(rt: &R, row: Row<'_>) -> Option<(u8, bool)> {
    let (parts, plan, log, _, said) = row;
    let mut yard = Vec::new(rt.alloc());
    for part in parts {
        yard.extend_from_slice(part.as_bytes()).ok()?;
    }
    let mut desk = QuietDesk::new(rt.alloc(), 64).ok()?;
    desk.put("y", yard.as_slice()).ok()?;
    desk.put("p", plan.as_bytes()).ok()?;
    desk.put("l", log.as_bytes()).ok()?;
    let ended = run_quietly(rt, rt.alloc(), &["check", "y", "p", "l"], &mut desk);
    Some((ended.0, desk.said() == said.as_bytes()))
}

#[test]
fn verdicts_on_logs(rt: HostRuntime) {
    let cases: [Row<'_>; 23] = [
        (SQUARES, FIRST, FIVE, 0, "certified\n"),
        (
            SQUARES,
            FIRST,
            "log 1\nbranch 1 0 18 0:0 -\nbranch 1 0 18 0:1 -\nbranch 1 0 18 0:3 -\nbranch 0 0 18 - 0,1,2,3\nend\n",
            7,
            "not certified 2 BadCite 3 3\n",
        ),
        (
            SQUARES,
            FIRST,
            "log 1\nbranch 1 0 18 0:0 -\nbranch 1 0 18 0:1 -\nbranch 1 0 18 0:3 -\nbranch 0 0 18 - 0,1,2\nend\n",
            7,
            "not certified 3 Uncovered 3 2\n",
        ),
        (SQUARES, SECOND, FIVE, 7, "not certified 3 Uncovered 0 4\n"),
        (
            SQUARES,
            BOTH,
            FIVE,
            7,
            "not certified 1 PlanNotFeasible 0 1\n",
        ),
        (
            SQUARES,
            BOTH,
            "log 1\nend\n",
            7,
            "not certified 1 PlanNotFeasible 0 1\n",
        ),
        (
            SQUARES,
            FIRST,
            "log 1\nfit -\nend\n",
            7,
            "not certified 4 BoundLow 0 0\n",
        ),
        (
            SQUARES,
            FIRST,
            "log 1\nbranch 2 0 18 - -\nend\n",
            7,
            "not certified 6 BadForm 0\n",
        ),
        (
            SQUARES,
            FIRST,
            "log 1\nbranch 1 0 18 0:0 -\nbranch 1 0 18 0:1 -\nbranch 1 0 18 0:2 -\nbranch 1 0 18 0:3 -\nend\n",
            7,
            "not certified 5 NotEmpty\n",
        ),
        (
            SQUARES,
            FIRST,
            "log 1\nend\n",
            7,
            "not certified 5 NotEmpty\n",
        ),
        (
            SQUARES,
            FIRST,
            "log 1\nenergy 0 1 -\nend\n",
            7,
            "not certified 4 BoundLow 0 5\n",
        ),
        (
            SQUARES,
            FIRST,
            "log 1\nenergy 0 2 -\nend\n",
            7,
            "not certified 4 BoundLow 0 0\n",
        ),
        (
            SQUARES,
            FIRST,
            "log 1\nfit 0:18\nend\n",
            7,
            "not certified 6 BadForm 0\n",
        ),
        (
            SQUARES,
            FIRST,
            "log 1\nenergy 0 10 -\nend\n",
            7,
            "not certified 6 BadForm 0\n",
        ),
        (
            SQUARES,
            FIRST,
            "log 1\nbranch 0 0 18 - 0\nend\n",
            7,
            "not certified 2 BadCite 0 0\n",
        ),
        (
            SQUARES,
            "no plan\n",
            FIVE,
            7,
            "not certified 3 Uncovered 0 4\n",
        ),
        (
            TRIANGLES,
            "no plan\n",
            "log 1\nbranch 1 0 1 0:0 -\nbranch 0 0 1 - 0\nend\n",
            0,
            "certified\n",
        ),
        (
            NARROW,
            "no plan\n",
            "log 1\nbranch 0 0 0 - -\nend\n",
            0,
            "certified\n",
        ),
        (SQUARES, "", FIVE, 1, "refused plan 1 Line 1\n"),
        (SQUARES, FIRST, "log 1\nfit -\n", 1, "refused log 3 NoEnd\n"),
        (
            SQUARES,
            FIRST,
            "log 1\nbranch 00 0 18 - -\nend\n",
            1,
            "refused log 2 Line 2\n",
        ),
        (
            SQUARES,
            FIRST,
            "log 1\nfit 0:1,0:2\nend\n",
            1,
            "refused log 2 Line 2\n",
        ),
        (
            SQUARES,
            FIRST,
            "log 1\nbranch 0 18 0 - -\nend\n",
            1,
            "refused log 2 Line 2\n",
        ),
    ];
    for row in cases {
        assert_eq!(rt; checks(&rt, row), Some((row.3, true)), "at {}", row.4);
    }
}

#[test]
fn the_first_refusal_of_three_files(rt: HostRuntime) {
    let cases: [Row<'_>; 8] = [
        (
            ONE,
            "plan 1\nblock A plate P turn 0 x 0 y 0 start 0 end 2 tardiness 0\ntotal 0\n",
            ALL,
            1,
            "refused plan 4 Figure 2 2 1\n",
        ),
        (
            ONE,
            "plan 1\nblock A plate P turn 0 x 3 y 0 start 0 end 1 tardiness 0\ntotal 0\n",
            ALL,
            1,
            "refused plan 3 NotAPlacement 2\n",
        ),
        (
            ONE,
            "plan 1\nblock A plate P turn 0 x 0 y 0 start 0 end 1 tardiness 0\ntotal 0\n\n",
            ALL,
            1,
            "refused plan 5 Rest\n",
        ),
        (ONE, "", "", 1, "refused plan 1 Line 1\n"),
        (ONE, "no plan\n", "", 1, "refused log 1 Head\n"),
        (ONE, "no plan\n", ALL, 7, "not certified 3 Uncovered 0 0\n"),
        (&[TEN_DAYS], "", "", 1, "refused yard 8 NoPlate\n"),
        (
            &["version = 1\ndays = "],
            FIRST,
            FIVE,
            1,
            "refused yard 2 NotToml\n",
        ),
    ];
    for row in cases {
        assert_eq!(rt; checks(&rt, row), Some((row.3, true)), "at {}", row.4);
    }
}

#[test]
fn a_yard_that_is_too_long_is_refused_after_the_other_files_are_read(
    rt: HostRuntime,
) -> Result<(), Fail> {
    let zeros = vec![in rt.alloc(); 0u8; 1_048_577]?;
    let Ok(mut desk) = QuietDesk::new(rt.alloc(), 64) else {
        assert!(rt; false);
        return Ok(());
    };
    assert!(rt; desk.put("y", zeros.as_slice()).is_ok());
    let words = ["check", "y", "p", "l"];
    assert_eq!(rt; run_quietly(&rt, rt.alloc(), &words, &mut desk), Status(1));
    assert_eq!(rt; desk.said(), b"refused yard 1 TooLong\n".as_slice());
    let mut unread = UnreadDesk::new(rt.alloc(), 1_048_577);
    assert_eq!(rt;
        run(&rt, rt.alloc(), &words, &mut unread, &OpenGate),
        Status(4)
    );
    assert_eq!(rt; unread.said().len(), 0);
    Ok(())
}
