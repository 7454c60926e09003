//! The search by depth.
ghost use Rattle.std.specs.Prelude.{◌≡◌, ◌*◌, ◌≤◌, ◌↔◌, true, IsTrue, IfOk, length};
ghost use Rattle.plan_rule.specs.Choices.{IsCode, blocks};
ghost use Rattle.plan_rule.specs.Yards.{choices};
ghost use Rattle.plain_search.specs.Fronts.{cost_below, IsFront, IsClear, AreTails};
ghost use Rattle.plain_search.specs.Hands.{can_beat, IsKept, IsEarlier, Searched};

use crate::hand::{Hand, can_beat};
use code_table::Codes;
use plan_rule::{Plan, block_count, clash, meets};
use shape_exact::NoMemory;
use std::alloc::Global;

/// Whether a code of the next block clashes with none of the front, and meets no fixed piece.
fn is_clear(codes: &Codes, front: &[u32], block: u8, code: u32) -> bool
    requires front { IsFront (choices codes.now) front.now }
    requires block { block ≡ length front.now }
    requires code { IsCode (choices codes.now) block code }
    ensures { IsTrue result ↔ IsClear (choices codes.now) front.now code }
{
    for other in 0..block {
        if clash(codes, other, front[other as usize], block, code) {
            return false;
        }
    }
    match meets(codes, block, code) {
        Some(_) => false,
        None => true,
    }
}

/// Whether the front with this code of the next block may lead to a better plan than the one in hand: no code clashes
/// or meets a piece, and `bound`, the least that a plan with this front costs, is below the total of the plan in hand.
fn may_lead(
    codes: &Codes,
    front: &[u32],
    block: u8,
    code: u32,
    hand: &Option<Hand>,
    bound: u32,
) -> bool
    requires front { IsFront (choices codes.now) front.now }
    requires block { block ≡ length front.now }
    requires code { IsCode (choices codes.now) block code }
    ensures { IsTrue result ↔ (IsTrue (can_beat hand.now bound) × IsClear (choices codes.now) front.now code) }
{
    can_beat(hand, bound) && is_clear(codes, front, block, code)
}

/// Searches the plans that begin with the front, in the order of their codes, and keeps the best in hand. `cost` is what
/// the front costs, and `tails[k]` what the last k blocks cost at least.
pub fn search(
    alloc: Global,
    codes: &Codes,
    tails: &[u32],
    front: &mut Vec<u32>,
    cost: u32,
    hand: &mut Option<Hand>,
) -> Result<(), NoMemory>
    requires front { IsFront (choices codes.now) front.old.items }
    requires tails { AreTails (choices codes.now) tails.now }
    requires cost { cost ≡ cost_below (choices codes.now) (length front.old.items) front.old.items }
    requires small { cost ≤ 400000 * length front.old.items }
    requires kept { IsKept (choices codes.now) hand.old }
    requires earlier { IsEarlier hand.old front.old.items }
    requires better { can_beat hand.old cost ≡ true }
    ensures front { IfOk result (λ _. front.new.items ≡ front.old.items) }
    ensures hand { IfOk result (λ _. Searched (choices codes.now) front.old.items hand.old hand.new) }
{
    let blocks = block_count(codes);
    let block = front.len() as u8;
    if block == blocks {
        let plan = Plan::new(alloc, codes, front.as_slice())?;
        *hand = Some(Hand { plan, total: cost });
        return Ok(());
    }
    let left = (blocks - block) as usize;
    for code in 0..codes.count(block) {
        if !can_beat(hand, cost + tails[left]) {
            return Ok(());
        }
        let sum = cost + codes.own_cost(block, code);
        if may_lead(
            codes,
            front.as_slice(),
            block,
            code,
            hand,
            sum + tails[left - 1],
        ) {
            front.push(code)?;
            search(alloc, codes, tails, front, sum, hand)?;
            front.pop();
        }
    }
    Ok(())
}
