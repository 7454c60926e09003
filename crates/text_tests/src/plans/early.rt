//! Texts of yards with a cost for early days, written by hand.

use super::{FIRST, is_refused};
use code_table::Codes;
use plan_text::{PlanFault, print_plan, read_plan};
use std::alloc::Global;
use std::process::Abort;
use std::test::Fail;

/// A square of 2 by 2, due on day 5, each early day for 2.
const ONE: &[u8] = b"version = 3
days = 10
plate = [{ name = 'P', width = 4, height = 3 }]
block = [{ name = 'A', shape = [[0,0],[2,0],[2,2],[0,2]], duration = 2, due = 5, early = 2 }]
";

/// Two such squares, of which the second alone has a cost for early days.
const SECOND: &[u8] = b"version = 3
days = 10
plate = [{ name = 'P', width = 4, height = 3 }]
block = [
    { name = 'A', shape = [[0,0],[2,0],[2,2],[0,2]], duration = 2, due = 4 },
    { name = 'B', shape = [[0,0],[2,0],[2,2],[0,2]], duration = 2, due = 5, early = 2 },
]
";

/// The codes of the yard of the one square.
fn codes_of(alloc: Global) -> Result<Codes, Fail> {
    Ok(sample_yards::codes_of(alloc, ONE)?)
}

const ON_TIME: &[u8] =
    b"plan 2\nblock A plate P turn 0 x 0 y 0 start 4 end 5 tardiness 0 early 0\ntotal 0\n";

const EARLY: &[u8] =
    b"plan 2\nblock A plate P turn 0 x 0 y 0 start 2 end 3 tardiness 0 early 2\ntotal 4\n";

const LATE: &[u8] =
    b"plan 2\nblock A plate P turn 0 x 2 y 1 start 6 end 7 tardiness 2 early 0\ntotal 2\n";

/// The first block ends three days early for nothing, the second two days early for 4.
const TWO: &[u8] = b"plan 2
block A plate P turn 0 x 0 y 0 start 0 end 1 tardiness 0 early 3
block B plate P turn 0 x 0 y 0 start 2 end 3 tardiness 0 early 2
total 4
";

fn is_printed_again(
    rt: &impl Abort,
    alloc: Global,
    codes: &Codes,
    text: &[u8],
) -> Result<(), Fail> {
    let plan = read_plan(alloc, codes, text)?;
    let printed = print_plan(alloc, codes, plan.as_ref())?;
    assert_eq!(rt; printed.as_slice(), text);
    Ok(())
}

#[test]
fn early_days_are_read_and_printed(rt: HostRuntime) -> Result<(), Fail> {
    let codes = codes_of(rt.alloc())?;
    for text in [ON_TIME, EARLY, LATE, b"no plan\n".as_slice()] {
        is_printed_again(&rt, rt.alloc(), &codes, text)?;
    }
    let codes = sample_yards::codes_of(rt.alloc(), SECOND)?;
    is_printed_again(&rt, rt.alloc(), &codes, TWO)
}

#[test]
fn the_head_is_that_of_the_yard(rt: HostRuntime) -> Result<(), Fail> {
    let codes = codes_of(rt.alloc())?;
    let rows: [(&[u8], PlanFault); 4] = [
        (b"plan 1\n", PlanFault::Line(1)),
        (FIRST, PlanFault::Line(1)),
        (b"plan 2\n", PlanFault::Line(2)),
        (b"plan 3\n", PlanFault::Line(1)),
    ];
    for (text, fault) in rows {
        is_refused(&rt, rt.alloc(), &codes, text, fault);
    }
    let without = super::codes_of(rt.alloc())?;
    is_refused(&rt, rt.alloc(), &without, ON_TIME, PlanFault::Line(1));
    Ok(())
}

/// Texts of a head, one block's line and a total, and their faults.
#[test]
fn early_days_are_asked_for_last(rt: HostRuntime) -> Result<(), Fail> {
    let codes = codes_of(rt.alloc())?;
    let rows: [(&[u8], PlanFault); 8] = [
        (b"start 2 end 3 tardiness 0\ntotal 4\n", PlanFault::Line(2)),
        (
            b"start 2 end 3 early 2 tardiness 0\ntotal 4\n",
            PlanFault::Line(2),
        ),
        (
            b"start 2 end 3 tardiness 0 early 02\ntotal 4\n",
            PlanFault::Line(2),
        ),
        (
            b"start 2 end 3 tardiness 0 early 4294967296\ntotal 4\n",
            PlanFault::Line(2),
        ),
        (
            b"start 2 end 4 tardiness 1 early 3\ntotal 4\n",
            PlanFault::Figure(2, 4, 3),
        ),
        (
            b"start 2 end 3 tardiness 1 early 3\ntotal 4\n",
            PlanFault::Figure(2, 1, 0),
        ),
        (
            b"start 2 end 3 tardiness 0 early 3\ntotal 6\n",
            PlanFault::Figure(2, 3, 2),
        ),
        (
            b"start 2 end 3 tardiness 0 early 2\ntotal 0\n",
            PlanFault::Figure(3, 0, 4),
        ),
    ];
    for (end, fault) in rows {
        let mut text = Vec::new(rt.alloc());
        text.extend_from_slice(b"plan 2\nblock A plate P turn 0 x 0 y 0 ")?;
        text.extend_from_slice(end)?;
        is_refused(&rt, rt.alloc(), &codes, text.as_slice(), fault);
    }
    let line = PlanFault::Figure(2, 3, 2).line(rt.alloc())?;
    assert_eq!(rt;
        line.as_slice(),
        b"refused plan 4 Figure 2 3 2\n".as_slice()
    );
    Ok(())
}
