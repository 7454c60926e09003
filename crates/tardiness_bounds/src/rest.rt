//! What a block costs at least in a box.
ghost use Rattle.std.specs.Prelude.{◌≤◌, ◌<◌, IfSome};
ghost use Rattle.plan_rule.specs.Bounds.{IsLeastOf, MayTake};
ghost use Rattle.plan_rule.specs.Boxes.{IsBox};
ghost use Rattle.plan_rule.specs.Choices.{blocks};
ghost use Rattle.plan_rule.specs.Yards.{choices};

use code_table::Codes;
use plan_rule::PlanBox;

/// What a block costs at least in a box: the cost of the code that the box sets it to, else the least of its codes.
/// None where it has no code.
#[tactic(auto, using(plan_rule::proofs::CountLaws::counts))]
pub(crate) fn least_in(codes: &Codes, side: &PlanBox, block: u8) -> Option<u32>
    requires side { IsBox (choices codes.now) side.now }
    requires block { block < blocks (choices codes.now) }
    ensures least { IsLeastOf (MayTake (choices codes.now) side.now block) ((choices codes.now).cost block) result }
    ensures few { IfSome result (λ cost. cost ≤ 400000) }
{
    match side.exact_code(block) {
        Some(code) => Some(codes.own_cost(block, code)),
        None => codes.least_cost(block),
    }
}
