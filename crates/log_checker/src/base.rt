//! The base of a side.
ghost use Rattle.std.specs.Prelude.{◌≤◌, ◌*◌, IfSome};
ghost use Rattle.plan_rule.specs.Boxes.{IsBox};
ghost use Rattle.plan_rule.specs.Bounds.{IsBase};
ghost use Rattle.plan_rule.specs.Yards.{choices};

use crate::rest::least_in;
use code_table::Codes;
use plan_rule::{PlanBox, block_count};

/// The base of the side; None for Never.
pub(crate) fn base(codes: &Codes, side: &PlanBox) -> Option<u32>
    requires { IsBox (choices codes.now) side.now }
    ensures base { IsBase (choices codes.now) side.now result }
    ensures few { IfSome result (λ n. n ≤ 400000 * 32) }
{
    let mut sum = 0;
    for block in 0..block_count(codes) {
        sum += least_in(codes, side, block)?;
    }
    Some(sum)
}
