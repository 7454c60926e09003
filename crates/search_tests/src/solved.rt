//! Searches of small yards, worked by hand.

use branch_core::{plan_with_log, solve};
use branch_kernel::{OneBar, count_of};
use code_table::Codes;
use nogood_store::Nogoods;
use plan_rule::{Job, Literal, Plan, PlanBox, block_count};
use refutation_log::{Log, Record, write_log};
use sample_yards::{TWO_SQUARES, TWO_TRIANGLES, codes_in};
use shape_exact::NoMemory;
use std::alloc::Global;
use std::test::Fail;

/// The codes of the plan; none where there is no plan.
fn codes_told(alloc: Global, best: &Option<Plan>) -> Result<Vec<u32>, NoMemory> {
    match best {
        Some(plan) => Ok(plan.codes().to_vec(alloc)?),
        None => Ok(Vec::new(alloc)),
    }
}

const PLATE: &str = "{name='P',width=4,height=3}";

const SQUARES: &str = "{name='A',weight=5,shape=[[0,0],[3,0],[3,3],[0,3]],duration=2,due=1},\
    {name='B',weight=5,shape=[[0,0],[3,0],[3,3],[0,3]],duration=2,due=1}";

/// Squares that share a plate in turn; three blocks that need 13 cells and days of the 12 that two days have; two triangles
/// that may not be turned; a block that is wider than the plate.
#[test]
fn small_yards_have_these_plans_and_logs(rt: HostRuntime) -> Result<(), Fail> {
    let low = "{name='P',width=3,height=2}";
    let tall = "{name='P',width=4,height=4}";
    let three = "{name='A',weight=2,shape=[[0,0],[2,0],[2,2],[0,2]],duration=2,due=1},\
        {name='B',weight=3,shape=[[0,0],[1,0],[1,2],[0,2]],duration=2,due=1},\
        {name='C',weight=4,shape=[[0,0],[1,0],[1,1],[0,1]],duration=1,due=1}";
    let fixed = "{name='A',shape=[[0,0],[4,0],[0,4]],duration=1,due=0},\
        {name='B',shape=[[0,0],[4,0],[0,4]],duration=1,due=0}";
    let wide = "{name='A',shape=[[0,0],[5,0],[5,2],[0,2]],duration=1,due=0}";
    let none: &[u32] = &[];
    for (days, plates, blocks, best, log) in [
        (10, PLATE, SQUARES, [0, 4].as_slice(), ""),
        (10, low, three, [2, 2, 0].as_slice(), ""),
        (2, low, three, none, "log 1\nenergy 0 1 -\nend\n"),
        (
            1,
            tall,
            fixed,
            none,
            "log 1\nbranch 1 0 1 0:0 -\nbranch 0 0 1 - 0\nend\n",
        ),
        (1, tall, wide, none, "log 1\nbranch 0 0 0 - -\nend\n"),
    ] {
        let codes = codes_in(rt.alloc(), days, plates, blocks)?;
        let planned = plan_with_log(rt.alloc(), &codes)?;
        let told = codes_told(rt.alloc(), &planned.best)?;
        assert!(rt; told.as_slice() == best, "{blocks}");
        let text = write_log(rt.alloc(), &planned.log)?;
        assert!(rt;
            log.is_empty() || text.as_slice() == log.as_bytes(),
            "{blocks}"
        );
    }
    Ok(())
}

/// The bar as the search of the job of all path numbers saw it last.
fn seen_of(alloc: Global, codes: &Codes) -> Result<u64, NoMemory> {
    let mut bars = OneBar::new(codes);
    let mut store = Nogoods::new(alloc)?;
    let mut log = Log::new(alloc);
    let report = solve(alloc, codes, Job::root(), &mut bars, &mut store, &mut log)?;
    Ok(report.seen)
}

/// The key of the plan 0, 4: its total 10 and its path number 67,108,864.
#[test]
fn two_squares_end_with_the_key_of_their_plan(rt: HostRuntime) -> Result<(), Fail> {
    let codes = sample_yards::codes_of(rt.alloc(), TWO_SQUARES)?;
    assert_eq!(rt; seen_of(rt.alloc(), &codes)?, 43_016_781_824);
    Ok(())
}

/// Whether the search of a yard, over a store of the box `0:0` and a log whose one record refutes it, adds one record,
/// and that record cites the first.
fn takes_the_hit(alloc: Global, codes: &Codes) -> Result<bool, NoMemory> {
    if block_count(codes) == 0 || count_of(codes, 0) == 0 {
        return Ok(false);
    }
    let literal = Literal::exact(0, 0);
    let side = PlanBox::new(alloc, &[literal])?;
    let part = PlanBox::new(alloc, &[literal])?;
    let mut log = Log::new(alloc);
    log.push(Record::Fit { side })?;
    let mut store = Nogoods::new(alloc)?;
    store.add(part, 0)?;
    let mut bars = OneBar::new(codes);
    solve(alloc, codes, Job::root(), &mut bars, &mut store, &mut log)?;
    let records = log.records();
    if records.len() != 2 {
        return Ok(false);
    }
    match &records[1] {
        Record::Branch { cites, .. } => Ok(cites.list() == [0].as_slice()),
        _ => Ok(false),
    }
}

/// Two triangles that may not be turned: the fit of the first one's code is Never.
#[test]
fn a_stored_box_costs_one_record(rt: HostRuntime) -> Result<(), Fail> {
    let codes = sample_yards::codes_of(rt.alloc(), TWO_TRIANGLES)?;
    assert!(rt; takes_the_hit(rt.alloc(), &codes)?);
    Ok(())
}
