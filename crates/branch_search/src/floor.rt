//! Bounds that beat a box and each box with more literals.
ghost use Rattle.std.specs.Prelude.{◌<◌, ◌≤◌, ◌/◌, ◌^◌, IfNone, IfSome};
ghost use Rattle.plan_rule.specs.Boxes.{IsBox};
ghost use Rattle.plan_rule.specs.Bounds.{IsAtMost};
ghost use Rattle.plan_rule.specs.Yards.{choices};
ghost use Rattle.tardiness_bounds.specs.Numbers.{number};
ghost use Rattle.branch_kernel.specs.Known.{AreKnown};
ghost use Rattle.branch_kernel.specs.States.{IsHeld, relied};
ghost use Rattle.branch_search.specs.Floors.{BeatsFrom};

use code_table::Codes;
use plan_rule::{Plan, PlanBox, total};
use tardiness_bounds::Bound;

/// Whether each bound from this one on leaves nothing in the box, nor in a box with more literals, that could still be
/// the answer: it is above the bar's total, or it ties with the total of the best plan so far and every plan of the box
/// is behind that plan. Some answers whether by the tie. None says that the bound is at most the bar's total.
pub(crate) fn beats_from(
    codes: &Codes,
    bar: u64,
    best: &Option<Plan>,
    part: &PlanBox,
    bound: Bound,
) -> Option<bool>
    requires known { AreKnown (choices codes.now) }
    requires fits { bar < 2 ^ 64 }
    requires held { IsHeld (choices codes.now) bar best.now }
    requires part { IsBox (choices codes.now) part.now }
    ensures some { IfSome result (λ tie. BeatsFrom (choices codes.now) bar (relied tie best.now) part.now (number bound)) }
    ensures none { IfNone result (IsAtMost (number bound) (bar / 2 ^ 32)) }
{
    let Bound::Number(least) = bound else {
        return Some(false);
    };
    if bar / 0x1_0000_0000 < u64::from(least) {
        return Some(false);
    }
    if let Some(plan) = best {
        if least == total(codes, plan) && part.behind(plan) {
            return Some(true);
        }
    }
    None
}
