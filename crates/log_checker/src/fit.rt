//! The fit of a side.
ghost use Rattle.std.specs.Prelude.{◌≡◌, ◌<◌, ◌≤◌, All, Contains, None, MatchOption, Some, length, if◌then◌else◌, nat_le};
ghost use Rattle.plan_rule.specs.Choices.{blocks};
ghost use Rattle.plan_rule.specs.Boxes.{IsBox};
ghost use Rattle.plan_rule.specs.Bounds.{IsFit};
ghost use Rattle.plan_rule.specs.Yards.{choices};
ghost use Rattle.log_checker.specs.Claims.{plan_of};
ghost use Rattle.log_checker.specs.ExactBlocks.{AreExact, IsStanding};
ghost use Rattle.log_checker.specs.Leasts.{IsFitUpTo, IsLeastFit};
ghost use Rattle.log_checker.specs.Masks.{AreTold};
ghost use Rattle.log_checker.specs.PassedCodes.{ArePassed};
ghost use Rattle.log_checker.specs.Verdicts.{TellsBound};

use crate::base::base;
use crate::claim::Claim;
use crate::exact::{Exact, exact_of};
use crate::free::least_free;
use crate::judge::Judge;
use crate::mask::Masks;
use crate::passed::Passed;
use crate::refute::fault;
use crate::rest::least_in;
use code_table::Codes;
use plan_rule::{PlanBox, block_count};

/// The cost, where it is at most the limit.
fn up_to(cost: u32, limit: u32) -> Option<u32>
    ensures { result ≡ if nat_le cost limit then Some cost else None }
{
    if cost <= limit { Some(cost) } else { None }
}

/// The least own cost of the block's codes that fit the side, where it is at most the limit.
fn least_fit(
    codes: &Codes,
    masks: &mut Masks,
    passed: &mut Passed,
    side: &PlanBox,
    exacts: &[Exact],
    block: u8,
    limit: u32,
) -> Option<u32>
    requires told { AreTold codes.now masks.old }
    requires kept { ArePassed codes.now passed.old }
    requires side { IsBox (choices codes.now) side.now }
    requires exacts { AreExact codes.now side.now exacts.now }
    requires few { length exacts.now ≤ 32 }
    requires standing { All (IsStanding codes.now) exacts.now }
    requires block { block < blocks (choices codes.now) }
    requires among { All (Contains exacts.now) passed.old.exacts.items }
    ensures value { IsLeastFit (choices codes.now) side.now block limit result }
    ensures told { AreTold codes.now masks.new }
    ensures kept { ArePassed codes.now passed.new }
    ensures among { All (Contains exacts.now) passed.new.exacts.items }
{
    match side.exact_code(block) {
        Some(code) => up_to(codes.own_cost(block, code), limit),
        None => least_free(codes, masks, passed, exacts, block, limit),
    }
}

/// The fit of the side, where it is at most the limit; None where it is above, or Never. A block's least cost is not
/// sought above what the limit leaves beside the costs found so far and the least own costs of the blocks to come.
fn fit(
    codes: &Codes,
    masks: &mut Masks,
    passed: &mut Passed,
    side: &PlanBox,
    limit: u32,
) -> Option<u32>
    requires told { AreTold codes.now masks.old }
    requires kept { ArePassed codes.now passed.old }
    requires side { IsBox (choices codes.now) side.now }
    ensures value { IsFitUpTo (choices codes.now) side.now limit result }
    ensures told { AreTold codes.now masks.new }
    ensures kept { ArePassed codes.now passed.new }
{
    let mut rest = base(codes, side)?;
    let exacts = exact_of(codes, side);
    let exacts = exacts.as_slice();
    passed.turn_to(exacts);
    let mut sum = 0;
    for block in 0..block_count(codes) {
        rest -= least_in(codes, side, block)?;
        let left = limit.checked_sub(sum + rest)?;
        sum += least_fit(codes, masks, passed, side, exacts, block, left)?;
    }
    Some(sum)
}

/// The greatest bound that does not refute a side for its total.
fn greatest(claim: Option<Claim<'_>>) -> u32
    ensures { MatchOption claim.entry (result ≡ 4294967295) (λ c. result ≡ c.total) }
{
    match claim {
        Some(claim) => claim.total,
        None => u32::MAX,
    }
}

/// The fit of the side, where it does not refute the side; None where it does.
pub(crate) fn fit_fault(
    judge: &Judge<'_>,
    masks: &mut Masks,
    passed: &mut Passed,
    side: &PlanBox,
) -> Option<u32>
    requires told { AreTold judge.now.codes.now masks.old }
    requires kept { ArePassed judge.now.codes.now passed.old }
    requires side { IsBox (choices judge.now.codes.now) side.now }
    ensures value { TellsBound (IsFit (choices judge.now.codes.now) side.now) (choices judge.now.codes.now) (plan_of judge.now.claim) side.now result }
    ensures told { AreTold judge.now.codes.now masks.new }
    ensures kept { ArePassed judge.now.codes.now passed.new }
{
    judge.codes.limits();
    let Some(fit) = fit(judge.codes, masks, passed, side, greatest(judge.claim)) else {
        return None;
    };
    fault(judge, side, Some(fit))
}
