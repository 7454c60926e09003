//! Verdicts on small yards with fixed pieces and early costs, worked by hand.
ghost use Rattle.std.specs.Prelude.{IsTrue};
ghost use Rattle.plan_rule.specs.Plans.{IsPlan};
ghost use Rattle.plan_rule.specs.Yards.{choices};

pub(crate) mod yards;

use crate::{Refused, Verdict, check};
use code_table::Codes;
use plan_rule::{Plan, block_count};
use refutation_log::read_log;
use shape_exact::Yard;
use std::alloc::Global;
use std::process::Abort;
use std::test::Fail;
use yards::{Row, add_piece, codes_of, yard_of};

/// Two by two, for two days, due on day 1.
const SQUARE: Row = Row {
    size: (2, 2),
    days: (2, 1),
    costs: (1, 0),
};

/// Whether the list has one code for each block.
#[tactic(auto, using(plan_rule::proofs::CountLaws::counts))]
fn is_plan(codes: &Codes, list: &[u32]) -> bool
    ensures { IsTrue result → IsPlan (choices codes.now) list.now }
{
    if list.len() != block_count(codes) as usize {
        return false;
    }
    for block in 0..block_count(codes) {
        if list[block as usize] >= codes.count(block) {
            return false;
        }
    }
    true
}

/// The verdict on a log of these records: of a plan, or where the list is empty that no plan is feasible.
fn judged(
    rt: &impl Abort,
    alloc: Global,
    yard: &Yard,
    plan: &[u32],
    records: &str,
) -> Result<Verdict, Fail> {
    let codes = codes_of(rt, alloc, yard)?;
    let text = format!(in alloc; "log 1\n{records}end\n")?;
    let log = read_log(alloc, text.as_bytes())?;
    if plan.is_empty() {
        return Ok(check(alloc, &codes, None, &log)?);
    }
    assert!(rt; is_plan(&codes, plan));
    let plan = Plan::new(alloc, &codes, plan)?;
    Ok(check(alloc, &codes, Some(&plan), &log)?)
}

/// A plate of four by three in ten days, the square, and a piece that stands from (0, 0).
fn one_block(rt: &impl Abort, piece: (i32, i32), days: (u16, u16)) -> Yard {
    let mut yard = yard_of(rt, 10, (4, 3), 400, &[SQUARE]);
    add_piece(rt, &mut yard, piece, days);
    yard
}

/// A piece that fills the plate on each day leaves no code; the square beside a piece of two by two has its best code 2,
/// and a piece that fills the plate on day 0 delays it by a day.
#[test]
fn a_piece_leaves_the_codes_that_do_not_meet_it(rt: HostRuntime) -> Result<(), Fail> {
    let full = one_block(&rt, (4, 3), (0, 9));
    let beside = one_block(&rt, (2, 2), (0, 1));
    let first = one_block(&rt, (4, 3), (0, 0));
    let rows: [(&Yard, &[u32], &str, Verdict); 10] = [
        (&full, &[], "fit -\n", Verdict::Accepted),
        (&full, &[], "branch 0 0 54 - -\n", Verdict::Accepted),
        (&beside, &[2], "branch 0 0 54 - -\n", Verdict::Accepted),
        (
            &beside,
            &[2],
            "fit -\n",
            Verdict::Refused(Refused::BoundLow(0, 0)),
        ),
        (
            &beside,
            &[5],
            "branch 0 0 54 - -\n",
            Verdict::Refused(Refused::Uncovered(0, 2)),
        ),
        (
            &beside,
            &[],
            "branch 0 0 54 - -\n",
            Verdict::Refused(Refused::Uncovered(0, 2)),
        ),
        (&first, &[6], "branch 0 0 54 - -\n", Verdict::Accepted),
        (
            &first,
            &[],
            "fit -\n",
            Verdict::Refused(Refused::BoundLow(0, 1)),
        ),
        (
            &first,
            &[],
            "branch 0 0 54 - -\n",
            Verdict::Refused(Refused::Uncovered(0, 6)),
        ),
        (
            &first,
            &[],
            "branch 0 0 6 - -\n",
            Verdict::Refused(Refused::NotEmpty),
        ),
    ];
    for (yard, plan, records, wanted) in &rows {
        assert_eq!(rt;
            judged(&rt, rt.alloc(), yard, plan, records)?,
            *wanted,
            "{records}"
        );
    }
    Ok(())
}

/// A plan that meets a piece is refused before the log is asked, and a plan with a clash before that.
#[test]
fn a_plan_that_meets_a_piece_is_refused(rt: HostRuntime) -> Result<(), Fail> {
    let beside = one_block(&rt, (2, 2), (0, 1));
    let mut two = yard_of(&rt, 10, (4, 3), 400, &[SQUARE, SQUARE]);
    add_piece(&rt, &mut two, (1, 1), (3, 4));
    add_piece(&rt, &mut two, (1, 1), (0, 1));
    let rows: [(&Yard, &[u32], &str, Refused); 6] = [
        (&beside, &[0], "", Refused::PlanMeetsFixed(0, 0)),
        (&beside, &[0], "fit -\n", Refused::PlanMeetsFixed(0, 0)),
        (
            &beside,
            &[0],
            "branch 5 0 54 - -\n",
            Refused::PlanMeetsFixed(0, 0),
        ),
        (&beside, &[2], "", Refused::NotEmpty),
        (&two, &[0, 0], "", Refused::PlanNotFeasible(0, 1)),
        (&two, &[2, 0], "", Refused::PlanMeetsFixed(1, 1)),
    ];
    for (yard, plan, records, wanted) in &rows {
        let verdict = judged(&rt, rt.alloc(), yard, plan, records)?;
        assert_eq!(rt; verdict, Verdict::Refused(*wanted), "{records}");
    }
    let line = Refused::PlanMeetsFixed(0, 0).line(rt.alloc())?;
    assert!(rt; line.as_slice() == b"not certified 7 PlanMeetsFixed 0 0\n".as_slice());
    Ok(())
}

/// Three blocks on a plate of three by two: the blocks due on day 1 need 12 of its days 0 and 1, of which a piece of one
/// cell on day 0 leaves 11. Where the second block is three cells for one day they need 11.
#[test]
fn pieces_take_from_the_supply(rt: HostRuntime) -> Result<(), Fail> {
    let row = |size: (i32, i32), days: (u16, u16), weight: u16| Row {
        size,
        days,
        costs: (weight, 0),
    };
    let last = row((1, 1), (1, 2), 4);
    let twelve = [row((2, 2), (2, 1), 2), row((1, 2), (2, 1), 3), last];
    let eleven = [row((2, 2), (2, 1), 2), row((3, 1), (1, 1), 3), last];
    let rows: [(&[Row], (u16, u16), u32); 4] = [
        (&twelve, (0, 0), 2),
        (&twelve, (2, 2), 0),
        (&eleven, (0, 0), 0),
        (&eleven, (0, 1), 2),
    ];
    for (blocks, days, bound) in &rows {
        let mut yard = yard_of(&rt, 10, (3, 2), 400, blocks);
        add_piece(&rt, &mut yard, (1, 1), *days);
        let wanted = Verdict::Refused(Refused::BoundLow(0, *bound));
        assert_eq!(rt;
            judged(&rt, rt.alloc(), &yard, &[], "energy 0 1 -\n")?,
            wanted
        );
    }
    Ok(())
}

/// The least cost of a block that may be early: due on day 5 at 2 for each early day it ends then; in four days it ends on
/// day 3; for one day with day 5 closed it ends a day early; and where a piece fills the plate on days 4 and 5 it ends two
/// days late at 1 a day, and two days early at 3 a day.
#[test]
fn a_block_that_is_early_costs(rt: HostRuntime) -> Result<(), Fail> {
    let row = |duration: u16, weight: u16, early: u16| Row {
        size: (2, 2),
        days: (duration, 5),
        costs: (weight, early),
    };
    let rows: [(u16, u16, Row, (u16, u16), u32); 5] = [
        (10, 400, row(2, 1, 2), (9, 9), 0),
        (4, 400, row(2, 1, 2), (0, 0), 4),
        (10, 5, row(1, 1, 1), (9, 9), 1),
        (10, 400, row(2, 1, 2), (4, 5), 2),
        (10, 400, row(2, 3, 2), (4, 5), 4),
    ];
    for (days, closed, block, piece, bound) in &rows {
        let mut yard = yard_of(&rt, *days, (4, 3), *closed, &[*block]);
        add_piece(&rt, &mut yard, (4, 3), *piece);
        let wanted = Verdict::Refused(Refused::BoundLow(0, *bound));
        assert_eq!(rt; judged(&rt, rt.alloc(), &yard, &[], "fit -\n")?, wanted);
    }
    Ok(())
}

/// Beside a plan of total 0 that starts on day 4 the early and the late starts are covered by their cost, and so are the
/// later codes of that day.
#[test]
fn early_and_late_starts_are_covered(rt: HostRuntime) -> Result<(), Fail> {
    let block = Row {
        size: (2, 2),
        days: (2, 5),
        costs: (1, 2),
    };
    let yard = yard_of(&rt, 10, (4, 3), 400, &[block]);
    let uncovered = Verdict::Refused(Refused::Uncovered(0, 24));
    let rows: [(&[u32], &str, Verdict); 4] = [
        (&[24], "branch 0 0 54 - -\n", Verdict::Accepted),
        (&[25], "branch 0 0 54 - -\n", uncovered),
        (&[25], "branch 0 3 25 - -\n", uncovered),
        (
            &[25],
            "branch 0 0 24 - -\nbranch 0 25 54 - -\n",
            Verdict::Refused(Refused::NotEmpty),
        ),
    ];
    for (plan, records, wanted) in &rows {
        assert_eq!(rt;
            judged(&rt, rt.alloc(), &yard, plan, records)?,
            *wanted,
            "{records}"
        );
    }
    Ok(())
}
