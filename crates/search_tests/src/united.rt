//! Logs made by hand, taken into one.
ghost use Rattle.std.specs.Prelude.{IfOk};
ghost use Rattle.refutation_log.specs.Logs.{CiteEarlier};

use log_parts::{Known, unite};
use plan_rule::{Literal, PlanBox};
use refutation_log::{Cites, Log, Record};
use shape_exact::NoMemory;
use std::alloc::Global;
use std::test::Fail;

/// A fit of the side `0:3`, and a branch over the codes 3 up to an end, which cites it.
fn fit_and_branch(alloc: Global, end: u32) -> Result<Log, NoMemory>
    ensures { IfOk result (λ log. CiteEarlier log) }
{
    let mut log = Log::new(alloc);
    log.push(Record::Fit {
        side: PlanBox::new(alloc, &[Literal::exact(0, 3)])?,
    })?;
    log.push(Record::Branch {
        block: 0,
        lo: 3,
        hi: end,
        side: PlanBox::new(alloc, &[])?,
        cites: Cites::new(alloc, &[0])?,
    })?;
    Ok(log)
}

#[test]
fn a_box_that_both_logs_refute_stands_once(rt: HostRuntime) -> Result<(), Fail> {
    let alloc = rt.alloc();
    let mut known = Known::new(alloc);
    let mut whole = Log::new(alloc);
    let one = fit_and_branch(alloc, 4)?;
    let other = fit_and_branch(alloc, 5)?;
    let first = unite(alloc, &one, &mut whole, &mut known)?;
    assert_eq!(rt; first.as_slice(), [0, 1].as_slice());
    let second = unite(alloc, &other, &mut whole, &mut known)?;
    assert_eq!(rt; second.as_slice(), [0, 2].as_slice());
    let again = unite(alloc, &one, &mut whole, &mut known)?;
    assert_eq!(rt; again.as_slice(), [0, 1].as_slice());
    assert_eq!(rt; whole.records().len(), 3);
    match &whole.records()[2] {
        Record::Branch { cites, .. } => assert_eq!(rt; cites.list(), [0].as_slice()),
        _ => assert!(rt; false, "the second branch came last"),
    }
    Ok(())
}
