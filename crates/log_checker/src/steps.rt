//! The first record of a log that is no step, and why.
ghost use Rattle.std.specs.Prelude.{◌<◌, ◌≤◌, ◌^◌, All, IfOk, MatchOption, length};
ghost use Rattle.plan_rule.specs.Yards.{choices};
ghost use Rattle.log_checker.specs.Claims.{plan_of};
ghost use Rattle.log_checker.specs.Forms.{HasForm};
ghost use Rattle.log_checker.specs.Masks.{AreTold};
ghost use Rattle.log_checker.specs.PassedCodes.{ArePassed};
ghost use Rattle.log_checker.specs.Verdicts.{IsFirst, TellsStep, TellsSteps};

use crate::Refused;
use crate::branch::branch_fault;
use crate::energy::energy_fault;
use crate::fit::fit_fault;
use crate::form::has_form;
use crate::judge::Judge;
use crate::mask::Masks;
use crate::passed::Passed;
use refutation_log::{Cites, Record};
use shape_exact::NoMemory;
use std::alloc::Global;

/// The first citation of a number that is not below this one.
fn first_late(cites: &Cites, step: u64) -> Option<u64>
    ensures { MatchOption result (All (λ k. k < step) cites.now) (IsFirst (λ k. step ≤ k) cites.now) }
{
    for cite in cites.list() {
        if *cite >= step {
            return Some(*cite);
        }
    }
    None
}

/// Why the record is no step after the earlier ones; None where it is one.
fn fault_of(
    alloc: Global,
    judge: &Judge<'_>,
    masks: &mut Masks,
    passed: &mut Passed,
    earlier: &[Record],
    entry: &Record,
) -> Result<Option<Refused>, NoMemory>
    requires told { AreTold judge.now.codes.now masks.old }
    requires kept { ArePassed judge.now.codes.now passed.old }
    requires earlier { All (HasForm (choices judge.now.codes.now)) earlier.now }
    requires few { length earlier.now < 10 ^ 18 }
    ensures value { IfOk result
        (TellsStep (choices judge.now.codes.now) (plan_of judge.now.claim) earlier.now entry.now) }
    ensures told { AreTold judge.now.codes.now masks.new }
    ensures kept { ArePassed judge.now.codes.now passed.new }
{
    let step = earlier.len() as u64;
    if !has_form(judge.codes, entry) {
        return Ok(Some(Refused::BadForm(step)));
    }
    match entry {
        Record::Branch {
            block,
            lo,
            hi,
            side,
            cites,
        } => {
            if let Some(cite) = first_late(cites, step) {
                return Ok(Some(Refused::BadCite(step, cite)));
            }
            match branch_fault(alloc, judge, masks, earlier, *block, *lo, *hi, side, cites)? {
                Some(code) => Ok(Some(Refused::Uncovered(step, code))),
                None => Ok(None),
            }
        }
        Record::Fit { side } => match fit_fault(judge, masks, passed, side) {
            Some(bound) => Ok(Some(Refused::BoundLow(step, bound))),
            None => Ok(None),
        },
        Record::Energy { from, to, side } => {
            match energy_fault(judge, *from, *to, side) {
                Some(bound) => Ok(Some(Refused::BoundLow(step, bound))),
                None => Ok(None),
            }
        }
    }
}

/// Why the first record that is no step is not one; None where each record is a step.
pub(crate) fn first_fault(
    alloc: Global,
    judge: &Judge<'_>,
    records: &[Record],
) -> Result<Option<Refused>, NoMemory>
    requires few { length records.now < 10 ^ 18 }
    ensures { IfOk result (TellsSteps (choices judge.now.codes.now) (plan_of judge.now.claim) records.now) }
{
    let mut masks = Masks::new(alloc)?;
    let mut passed = Passed::new();
    for i in 0..records.len() {
        if let Some(refused) = fault_of(
            alloc,
            judge,
            &mut masks,
            &mut passed,
            &records[..i],
            &records[i],
        )? {
            return Ok(Some(refused));
        }
    }
    Ok(None)
}
