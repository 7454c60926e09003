//! Best plans where ending early has a cost, on yards of one block, worked by hand.

use code_table::Codes;
use plain_search::best_plan;
use plan_text::{PlanFault, print_plan, read_plan};
use std::alloc::Global;
use std::test::Fail;

/// The days of a yard, the lines of its plate, and those of its square of 2 by 2, of weight 1.
type Row = (u16, &'static str, &'static str);

/// The codes of the yard of a row.
fn codes_of(alloc: Global, row: Row) -> Result<Codes, Fail> {
    let (days, plate, square) = row;
    let text = format!(in alloc;
        "version=3\ndays={days}\nplate=[{{name='P',{plate}}}]\n\
        block=[{{name='A',shape=[[0,0],[2,0],[2,2],[0,2]],{square}}}]\n"
    )?;
    Ok(sample_yards::codes_of(alloc, text.as_bytes())?)
}

const TEN_DAYS: Row = (10, "width=4,height=3", "duration=2,due=5,early=2");

const FOUR_DAYS: Row = (4, "width=4,height=3", "duration=2,due=5,early=2");

const NO_COST: Row = (10, "width=4,height=3", "duration=2,due=5");

/// On the plate of the block's own size, closed on the due day.
const DUE_ON_A_CLOSED_DAY: Row = (
    10,
    "width=2,height=2,closed=[5]",
    "duration=1,due=5,early=1",
);

#[test]
fn a_block_ends_on_its_due_day_where_early_days_cost(rt: HostRuntime) -> Result<(), Fail> {
    let rows = [
        (
            TEN_DAYS,
            "plan 2\nblock A plate P turn 0 x 0 y 0 start 4 end 5 tardiness 0 early 0\ntotal 0\n",
        ),
        (
            FOUR_DAYS,
            "plan 2\nblock A plate P turn 0 x 0 y 0 start 2 end 3 tardiness 0 early 2\ntotal 4\n",
        ),
        // Days 4 and 6 both cost 1, and the earlier code wins.
        (
            DUE_ON_A_CLOSED_DAY,
            "plan 2\nblock A plate P turn 0 x 0 y 0 start 4 end 4 tardiness 0 early 1\ntotal 1\n",
        ),
        (
            NO_COST,
            "plan 1\nblock A plate P turn 0 x 0 y 0 start 0 end 1 tardiness 0\ntotal 0\n",
        ),
    ];
    for (row, said) in rows {
        let codes = codes_of(rt.alloc(), row)?;
        let best = best_plan(rt.alloc(), &codes)?;
        let text = print_plan(rt.alloc(), &codes, best.as_ref())?;
        assert_eq!(rt; text.as_slice(), said.as_bytes(), "at {said}");
    }
    Ok(())
}

#[test]
fn early_days_told_wrongly_are_refused(rt: HostRuntime) -> Result<(), Fail> {
    let codes = codes_of(rt.alloc(), FOUR_DAYS)?;
    let told =
        "plan 2\nblock A plate P turn 0 x 0 y 0 start 2 end 3 tardiness 0 early 3\ntotal 4\n";
    match read_plan(rt.alloc(), &codes, told.as_bytes()) {
        Ok(_) => assert!(rt; false, "early days that are not were read"),
        Err(fault) => {
            assert_eq!(rt; fault, PlanFault::Figure(2, 3, 2));
            let line = fault.line(rt.alloc())?;
            assert_eq!(rt;
                line.as_slice(),
                b"refused plan 4 Figure 2 3 2\n".as_slice()
            );
        }
    }
    Ok(())
}
