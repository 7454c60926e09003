//! What the blocks other than one cost at least beside a side.
ghost use Rattle.std.specs.Prelude.{◌≡◌, ◌≤◌, ◌<◌, IfSome};
ghost use Rattle.plan_rule.specs.Bounds.{IsLeastOf, MayTake};
ghost use Rattle.plan_rule.specs.Boxes.{IsBox};
ghost use Rattle.plan_rule.specs.Choices.{blocks};
ghost use Rattle.plan_rule.specs.Yards.{choices};
ghost use Rattle.log_checker.specs.Cuts.{IsRest};

use code_table::Codes;
use plan_rule::{PlanBox, block_count};

/// What a block costs at least in a box: the cost of the code to which the box fixes it, else the least of its codes.
/// None where it has no code.
#[tactic(auto, using(plan_rule::proofs::CountLaws::counts))]
pub(crate) fn least_in(codes: &Codes, side: &PlanBox, block: u8) -> Option<u32>
    requires side { IsBox (choices codes.now) side.now }
    requires block { block < blocks (choices codes.now) }
    ensures least { IsLeastOf (MayTake (choices codes.now) side.now block) ((choices codes.now).cost block) result }
    ensures few { IfSome result (λ cost. cost ≤ 400000) }
{
    match side.exact_code(block) {
        Some(code) => Some(codes.own_cost(block, code)),
        None => codes.least_cost(block),
    }
}

/// What the blocks other than one cost at least beside the side: the base, but for that block's own cost. None where
/// one of them has no code.
pub(crate) fn rest_of(codes: &Codes, side: &PlanBox, block: u8) -> Option<u32>
    requires side { IsBox (choices codes.now) side.now }
    requires block { block < blocks (choices codes.now) }
    ensures { IsRest (choices codes.now) side.now block result }
{
    let mut sum = 0;
    for other in 0..block_count(codes) {
        if other == block {
            continue;
        }
        sum += least_in(codes, side, other)?;
    }
    Some(sum)
}
