//! With which codes of a block a side is behind a plan.
ghost use Rattle.std.specs.Prelude.{◌≡◌, ◌↔◌, ◌≤◌, ◌<◌, IsTrue, length};
ghost use Rattle.plan_rule.specs.Boxes.{IsBox, LeavesFree};
ghost use Rattle.plan_rule.specs.Choices.{blocks};
ghost use Rattle.plan_rule.specs.Plans.{IsPlan};
ghost use Rattle.plan_rule.specs.Yards.{choices};
ghost use Rattle.log_checker.specs.Ties.{IsAbove, IsBehindFrom, IsFirstApart, IsFirstTie};

use code_table::Codes;
use plan_rule::{Plan, PlanBox, block_count};

/// Whether a literal of the box on the block has only codes above this one.
fn is_above(side: &PlanBox, block: u8, code: u32) -> bool
    ensures { IsTrue result ↔ IsAbove side.now block code }
{
    for l in side.literals() {
        if l.block == block && code < l.lo {
            return true;
        }
    }
    false
}

/// The first block, other than this one, that the box does not fix to the plan's code; the number of blocks where there
/// is none.
fn first_apart(codes: &Codes, plan: &Plan, side: &PlanBox, block: u8) -> u8
    requires plan { IsPlan (choices codes.now) plan.now }
    requires block { block < blocks (choices codes.now) }
    ensures { IsFirstApart side.now plan.now block result }
{
    let count = block_count(codes);
    let list = plan.codes();
    for other in 0..count {
        if other != block && side.exact_code(other) != Some(list[usize::from(other)]) {
            return other;
        }
    }
    count
}

/// Whether the block is past the last one, or its codes in the box are above the plan's.
fn is_behind_from(plan: &Plan, side: &PlanBox, apart: u8) -> bool
    requires { apart ≤ length plan.now }
    ensures { IsTrue result ↔ IsBehindFrom side.now plan.now apart }
{
    let codes = plan.codes();
    let at = usize::from(apart);
    at == codes.len() || is_above(side, apart, codes[at])
}

/// The first code of the block with which the side is behind the plan; past the last code, where it is with none.
#[tactic(auto, using(plan_rule::proofs::CountLaws::counts))]
pub(crate) fn first_tie(codes: &Codes, plan: &Plan, side: &PlanBox, block: u8) -> u32
    requires plan { IsPlan (choices codes.now) plan.now }
    requires side { IsBox (choices codes.now) side.now }
    requires block { block < blocks (choices codes.now) }
    requires free { LeavesFree side.now block }
    ensures { IsFirstTie (choices codes.now) side.now plan.now block result }
{
    let apart = first_apart(codes, plan, side, block);
    let behind = is_behind_from(plan, side, apart);
    let count = codes.count(block);
    if apart < block {
        return if behind { 0 } else { count };
    }
    let code = plan.codes()[usize::from(block)];
    if behind { code } else { code + 1 }
}
