//! The verdict on a log.
ghost use Rattle.std.specs.Prelude.{◌≡◌, ◌<◌, ◌^◌, ◌↔◌, IsTrue, IfOk, IfSome, MatchOption, length, option_map};
ghost use Rattle.plan_rule.specs.Plans.{IsAnswer, IsBest, IsPlan};
ghost use Rattle.plan_rule.specs.Yards.{choices};
ghost use Rattle.refutation_log.specs.Steps.{IsAccepted};
ghost use Rattle.log_checker.specs.Claims.{plan_of};
ghost use Rattle.log_checker.specs.Verdicts.{EndsEmpty, IsVerdict, RefusesAll};
ghost use Rattle.log_checker.specs.declared.verdict.Verdict.TheVariants.{Accepted};

use crate::claim::claim_of;
use crate::judge::Judge;
use crate::steps::first_fault;
use crate::{Refused, Verdict};
use code_table::Codes;
use plan_rule::{Plan, first_clash, first_met};
use refutation_log::{Log, Record};
use shape_exact::NoMemory;
use std::alloc::Global;

/// Whether the last record refutes every plan.
fn ends_empty(codes: &Codes, records: &[Record]) -> bool
    ensures { IsTrue result ↔ EndsEmpty (choices codes.now) records.now }
{
    match records.last() {
        Some(last) => last.refutes_all(codes),
        None => false,
    }
}

/// The verdict on a log whose plan, if there is one, is feasible.
fn verdict_of(alloc: Global, judge: &Judge<'_>, records: &[Record]) -> Result<Verdict, NoMemory>
    requires answer { IsAnswer (choices judge.now.codes.now) (plan_of judge.now.claim) }
    requires few { length records.now < 10 ^ 18 }
    ensures { IfOk result (IsVerdict (choices judge.now.codes.now) (plan_of judge.now.claim) records.now) }
{
    if let Some(refused) = first_fault(alloc, judge, records)? {
        return Ok(Verdict::Refused(refused));
    }
    if ends_empty(judge.codes, records) {
        return Ok(Verdict::Accepted);
    }
    Ok(Verdict::Refused(Refused::NotEmpty))
}

/// Why the plan may not stand, whatever the log: its first clash, or where there is none its first meeting with a fixed
/// piece; None where there is no plan, or it is feasible.
fn plan_fault(codes: &Codes, plan: Option<&Plan>) -> Option<Refused>
    requires { IfSome plan (λ p. IsPlan (choices codes.now) p.now) }
    ensures { MatchOption result (IsAnswer (choices codes.now) (option_map (λ p. p.now) plan.entry))
        (RefusesAll (choices codes.now) (option_map (λ p. p.now) plan.entry)) }
{
    let plan = plan?;
    if let Some((a, b)) = first_clash(codes, plan) {
        return Some(Refused::PlanNotFeasible(a, b));
    }
    if let Some((block, piece)) = first_met(codes, plan) {
        return Some(Refused::PlanMeetsFixed(block, piece));
    }
    None
}

/// Whether the log shows that the plan is the best, or where there is none that no plan is feasible; and if not, the
/// first reason why it does not: a clash in the plan, then a meeting of the plan with a fixed piece, then the first record
/// that is no step, by its form, its citations and what it should show, then that the last record does not refute every
/// plan.
///
/// Nothing is asked of who wrote the log. The only answer beside a verdict is want of memory.
pub fn check(
    alloc: Global,
    codes: &Codes,
    plan: Option<&Plan>,
    log: &Log,
) -> Result<Verdict, NoMemory>
    requires { IfSome plan (λ p. IsPlan (choices codes.now) p.now) }
    ensures verdict { IfOk result
        (IsVerdict (choices codes.now) (option_map (λ p. p.now) plan.entry) log.now) }
    ensures accepted { IfOk result
        (λ v. (v ≡ Accepted) ↔ IsAccepted (choices codes.now) (option_map (λ p. p.now) plan.entry) log.now) }
    ensures best { IfOk result
        (λ v. v ≡ Accepted → IsBest (choices codes.now) (option_map (λ p. p.now) plan.entry)) }
{
    codes.limits();
    if let Some(refused) = plan_fault(codes, plan) {
        return Ok(Verdict::Refused(refused));
    }
    let judge = Judge {
        codes,
        claim: claim_of(codes, plan),
    };
    verdict_of(alloc, &judge, log.records())
}
