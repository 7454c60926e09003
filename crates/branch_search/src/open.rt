//! Blocks that a box leaves open.
ghost use Rattle.std.specs.Prelude.{◌≡◌, ◌<◌, MatchOption, None};
ghost use Rattle.plan_rule.specs.Choices.{blocks};
ghost use Rattle.plan_rule.specs.Boxes.{exact_code};
ghost use Rattle.plan_rule.specs.Yards.{choices};
ghost use Rattle.branch_kernel.specs.Boxes.{IsWholePlan};

use code_table::Codes;
use plan_rule::{PlanBox, block_count};

/// The first block that the box sets to no code; None where it sets each to one.
pub(crate) fn first_open(codes: &Codes, part: &PlanBox) -> Option<u8>
    ensures { MatchOption result (IsWholePlan (choices codes.now) part.now)
        (λ b. (b < blocks (choices codes.now)) × (exact_code part.now b ≡ None)) }
{
    for block in 0..block_count(codes) {
        let Some(_code) = part.exact_code(block) else {
            return Some(block);
        };
    }
    None
}

/// A block that the box sets to no code: the first, or else this one, which it sets to none.
pub(crate) fn open_or(codes: &Codes, part: &PlanBox, block: u8) -> u8
    requires block { block < blocks (choices codes.now) }
    requires open { exact_code part.now block ≡ None }
    ensures block { result < blocks (choices codes.now) }
    ensures open { exact_code part.now result ≡ None }
{
    match first_open(codes, part) {
        Some(next) => next,
        None => block,
    }
}
