//! The best plan of a yard, by one worker, and a log that shows that it is.
ghost use Rattle.std.specs.Prelude.{◌≡◌, ◌+◌, ◌<◌, [], ℕ, ◌≤◌, IfOk, Some, length, slice_get};
ghost use Rattle.plan_rule.specs.declared.job.Job.{Job};
ghost use Rattle.plan_rule.specs.Choices.{blocks, count};
ghost use Rattle.plan_rule.specs.Plans.{IsBest};
ghost use Rattle.plan_rule.specs.Yards.{choices};
ghost use Rattle.refutation_log.specs.declared.record.Record.{Record};
ghost use Rattle.refutation_log.specs.Spelling.{HaveText};
ghost use Rattle.refutation_log.specs.Steps.{IsAccepted};
ghost use Rattle.branch_core.specs.Closed.{IsClosedOff};
ghost use Rattle.branch_core.specs.Solved.{IsRefutation, root};

use crate::proper::records_are_proper;
use crate::solve;
use branch_kernel::{OneBar, choices_are_known, count_of, write_branch};
use code_table::Codes;
use nogood_store::Nogoods;
use plan_rule::{Job, Literal, Plan, PlanBox, Region, region_of};
use refutation_log::{Log, Record};
use shape_exact::NoMemory;
use std::alloc::Global;

/// The best plan of a yard, or none where no plan is feasible, and an accepted log for that answer.
#[derive(Drop)]
pub struct Planned {
    pub best: Option<Plan>,
    pub log: Log,
}

/// The first block with one code.
fn block_of_one_code(codes: &Codes) -> u8
    requires few { blocks (choices codes.now) ≤ 32 }
    requires some { (b : ℕ) × (b < blocks (choices codes.now)) × (count (choices codes.now) b ≡ 1) }
    ensures block { result < blocks (choices codes.now) }
    ensures one { count (choices codes.now) result ≡ 1 }
{
    let mut block = 0;
    while count_of(codes, block) != 1 {
        block += 1;
    }
    block
}

/// Adds the record of the empty box, where the last record has another box. That box has literals on blocks with one code
/// alone: a branch over the one code of such a block, beside no literal, is covered by the last record.
fn close_off(alloc: Global, codes: &Codes, log: &mut Log, last: u64) -> Result<(), NoMemory>
    requires last { last + 1 ≡ length log.old }
    requires refutes { (e : Record) × (slice_get log.old last ≡ Some e) × IsRefutation (choices codes.now) root e }
    ensures { IfOk result (λ _. IsClosedOff (choices codes.now) log.old log.new) }
{
    if log.records()[last as usize].refutes_all(codes) {
        return Ok(());
    }
    choices_are_known(codes);
    let _region = region_of(codes, Job::root());
    let range = Literal::exact(block_of_one_code(codes), 0);
    let side = PlanBox::new(alloc, &[])?;
    let mut cites = Vec::new(alloc);
    cites.push(last)?;
    write_branch(log, range, side, cites)?;
    Ok(())
}

/// The best plan of a yard and a log that is accepted for it: the search of the job of all path numbers, closed by a
/// record of the empty box. None where no plan is feasible, and then the log refutes every plan.
pub fn plan_with_log(alloc: Global, codes: &Codes) -> Result<Planned, NoMemory>
    ensures best { IfOk result (λ p. IsBest (choices codes.now) p.best) }
    ensures accepted { IfOk result (λ p. IsAccepted (choices codes.now) p.best p.log) }
    ensures text { IfOk result (λ p. HaveText p.log) }
{
    choices_are_known(codes);
    let mut bars = OneBar::new(codes);
    let mut store = Nogoods::new(alloc)?;
    let mut log = Log::new(alloc);
    let report = solve(alloc, codes, Job::root(), &mut bars, &mut store, &mut log)?;
    close_off(alloc, codes, &mut log, report.refutation)?;
    records_are_proper(codes, &log, 0);
    Ok(Planned {
        best: report.best,
        log,
    })
}
