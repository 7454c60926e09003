//! What is asked of a list of codes before it is a plan of a region.
ghost use Rattle.std.specs.Prelude.{◌≡◌, true, IfOk, IfSome};
ghost use Rattle.plan_rule.specs.Plans.{IsFeasible, IsPlan};
ghost use Rattle.plan_rule.specs.Paths.{IsInRegion};
ghost use Rattle.plan_rule.specs.Regions.{Follows, IsRegionPart};
ghost use Rattle.plan_rule.specs.Yards.{choices};

use code_table::Codes;
use plan_rule::{Job, Plan, block_count, first_clash, first_met};
use shape_exact::NoMemory;
use std::alloc::Global;

/// Whether the list has one code for each block.
#[tactic(auto, using(plan_rule::proofs::CountLaws::counts))]
fn is_plan(codes: &Codes, list: &[u32]) -> bool
    ensures { result ≡ true → IsPlan (choices codes.now) list.now }
{
    if list.len() != usize::from(block_count(codes)) {
        return false;
    }
    for block in 0..block_count(codes) {
        if list[block as usize] >= codes.count(block) {
            return false;
        }
    }
    true
}

/// Whether the plan begins with the codes, and its next code, where there is one, is in the range.
fn follows(codes: &Codes, list: &[u32], front: &[u32], lo: u32, hi: u32) -> bool
    requires { IsPlan (choices codes.now) list.now }
    ensures { result ≡ true → Follows (choices codes.now) front.now lo hi list.now }
{
    if front.len() > list.len() {
        return false;
    }
    for block in 0..front.len() {
        if list[block] != front[block] {
            return false;
        }
    }
    front.len() == list.len() || lo <= list[front.len()] && list[front.len()] < hi
}

/// The plan of these codes, where it is feasible.
fn feasible(alloc: Global, codes: &Codes, list: &[u32]) -> Result<Option<Plan>, NoMemory>
    requires { IsPlan (choices codes.now) list.now }
    ensures { IfOk result (λ o. IfSome o (λ p. IsFeasible (choices codes.now) p × (p ≡ list.now))) }
{
    let plan = Plan::new(alloc, codes, list)?;
    if let Some(_clash) = first_clash(codes, &plan) {
        return Ok(None);
    }
    if let Some(_met) = first_met(codes, &plan) {
        return Ok(None);
    }
    Ok(Some(plan))
}

/// The plan of these codes, where it is a feasible plan of the yard.
pub(crate) fn feasible_plan(
    alloc: Global,
    codes: &Codes,
    list: &[u32],
) -> Result<Option<Plan>, NoMemory>
    ensures { IfOk result (λ o. IfSome o (λ p. IsFeasible (choices codes.now) p)) }
{
    if !is_plan(codes, list) {
        return Ok(None);
    }
    let Some(plan) = feasible(alloc, codes, list)? else {
        return Ok(None);
    };
    Ok(Some(plan))
}

/// The plan of these codes, where it is a feasible plan of the region.
pub(crate) fn guarded(
    alloc: Global,
    codes: &Codes,
    job: Job,
    front: &[u32],
    lo: u32,
    hi: u32,
    list: &[u32],
) -> Result<Option<Plan>, NoMemory>
    requires { IsRegionPart (choices codes.now) job front.now lo hi }
    ensures { IfOk result (λ o. IfSome o (λ p. IsFeasible (choices codes.now) p × IsInRegion (choices codes.now) job p)) }
{
    if !is_plan(codes, list) || !follows(codes, list, front, lo, hi) {
        return Ok(None);
    }
    let Some(plan) = feasible(alloc, codes, list)? else {
        return Ok(None);
    };
    Ok(Some(plan))
}
