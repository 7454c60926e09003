//! The record that closes a log.
ghost use Rattle.std.specs.Prelude.{◌≡◌, ◌<◌, ℕ, [], List, Option, IfOk};
ghost use Rattle.plan_rule.specs.Choices.{blocks, count};
ghost use Rattle.plan_rule.specs.Plans.{IsAnswer};
ghost use Rattle.plan_rule.specs.Yards.{choices};
ghost use Rattle.refutation_log.specs.Logs.{AreSteps};
ghost use Rattle.refutation_log.specs.Steps.{IsAccepted};
ghost use Rattle.plan_rule.specs.Fronts.{HasCodes};
ghost use Rattle.log_merge.specs.Closing.{AllExist, CoversRoot};
ghost use Rattle.log_merge.specs.Merging.{IsMergeable};
ghost use Rattle.log_merge.specs.Tiles.{root};

use crate::{Leaf, merge};
use code_table::Codes;
use plan_rule::{Job, PlanBox};
use refutation_log::{Cites, Log, Record};
use shape_exact::NoMemory;
use std::alloc::Global;

/// Closes a log: where its last record does not refute every plan, one more does, over all codes of block 0. It cites the
/// record of the root.
pub fn close_log(alloc: Global, codes: &Codes, root: u64, log: &mut Log) -> Result<(), NoMemory>
    requires { CoversRoot (choices codes.now) log.old root }
    ensures { IfOk result (λ _. (t : Option (List ℕ)) → IsAnswer (choices codes.now) t → AreSteps (choices codes.now) t log.old → IsAccepted (choices codes.now) t log.new) }
{
    codes.limits();
    let records = log.records();
    if records[records.len() - 1].refutes_all(codes) {
        return Ok(());
    }
    let rec = Record::Branch {
        block: 0,
        lo: 0,
        hi: codes.count(0),
        side: PlanBox::new(alloc, &[])?,
        cites: Cites::new(alloc, &[root])?,
    };
    log.push(rec)?;
    Ok(())
}

/// Closes the log of a yard with a block that has no code: where its last record does not refute every plan, one more
/// does, over no code of that block.
pub fn close_empty(alloc: Global, codes: &Codes, block: u8, log: &mut Log) -> Result<(), NoMemory>
    requires block { block < blocks (choices codes.now) }
    requires none { count (choices codes.now) block ≡ 0 }
    requires exist { AllExist (choices codes.now) log.old }
    ensures { IfOk result (λ _. (t : Option (List ℕ)) → IsAnswer (choices codes.now) t
        → AreSteps (choices codes.now) t log.old → IsAccepted (choices codes.now) t log.new) }
{
    let records = log.records();
    if !records.is_empty() && records[records.len() - 1].refutes_all(codes) {
        return Ok(());
    }
    let rec = Record::Branch {
        block,
        lo: 0,
        hi: 0,
        side: PlanBox::new(alloc, &[])?,
        cites: Cites::new(alloc, &[])?,
    };
    log.push(rec)?;
    Ok(())
}

/// Merges the records of leaves that make up the root, and closes the log. It is then accepted for each answer that may
/// stand and against which its old records are steps.
pub fn merge_all(
    alloc: Global,
    codes: &Codes,
    leaves: &[Leaf],
    log: &mut Log,
) -> Result<(), NoMemory>
    requires codes { HasCodes (choices codes.now) }
    requires exist { AllExist (choices codes.now) log.old }
    requires mergeable { IsMergeable (choices codes.now) root leaves.now 0 log.old }
    ensures { IfOk result (λ _. (t : Option (List ℕ)) → IsAnswer (choices codes.now) t → AreSteps (choices codes.now) t log.old → IsAccepted (choices codes.now) t log.new) }
{
    codes.limits();
    let merged = merge(alloc, codes, Job::root(), leaves, 0, log)?;
    close_log(alloc, codes, merged.record, log)
}
