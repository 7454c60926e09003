//! Boxes made of boxes.
ghost use Rattle.std.specs.Prelude.{◌≡◌, ◌≢◌, ◌+◌, ◌<◌, ◌≤◌, ◌++◌, ◌==◌, not, nat_lt, filter, ℕ, None, Some, IfOk, MatchOption, All, length, slice_index_or, ◌⊎◌, true, false};
ghost use Rattle.code_table.specs.Sizes.{most_placements};
ghost use Rattle.plan_rule.specs.Choices.{blocks, count};
ghost use Rattle.plan_rule.specs.Boxes.{AreAmong, HasExact, IsBox, LeavesFree, exact_code, with_literal};
ghost use Rattle.plan_rule.specs.Yards.{choices};
ghost use Rattle.branch_kernel.specs.Known.{AreKnown};
ghost use Rattle.branch_kernel.specs.Boxes.{Clashes, HasExactAll, IsRangeOn, IsWholePlan, kept, others, node_box};
ghost use Rattle.branch_kernel.specs.Marks.{MarksAll, has};

use crate::Blocks;
use code_table::Codes;
use plan_rule::{Literal, Plan, PlanBox, block_count, clash};
use shape_exact::NoMemory;
use std::alloc::Global;

/// How many codes the block has; 0 past the last block.
#[tactic(auto, using(plan_rule::proofs::CountLaws::counts))]
pub fn count_of(codes: &Codes, block: u8) -> u32
    ensures value { result ≡ count (choices codes.now) block }
    ensures few { result ≤ most_placements }
{
    if block < block_count(codes) {
        codes.count(block)
    } else {
        0
    }
}

/// A second box of the same literals.
pub fn copy(alloc: Global, part: &PlanBox) -> Result<PlanBox, NoMemory>
    ensures { IfOk result (λ b. b ≡ part.now) }
{
    PlanBox::new(alloc, part.literals())
}

/// Adds the literals of the box on blocks below this one.
fn add_before(list: &mut Vec<Literal>, part: &[Literal], block: u8) -> Result<(), NoMemory>
    ensures { IfOk result (λ _. list.new.items ≡ list.old.items ++ filter (λ m. nat_lt m.block block) part.now) }
{
    for l in part {
        if l.block < block {
            list.push(*l)?;
        }
    }
    Ok(())
}

/// Adds the literals of the box on blocks above this one.
fn add_after(list: &mut Vec<Literal>, part: &[Literal], block: u8) -> Result<(), NoMemory>
    ensures { IfOk result (λ _. list.new.items ≡ list.old.items ++ filter (λ m. nat_lt block m.block) part.now) }
{
    for l in part {
        if block < l.block {
            list.push(*l)?;
        }
    }
    Ok(())
}

/// The box with one literal more, in its place.
pub fn with(alloc: Global, side: &PlanBox, literal: Literal) -> Result<PlanBox, NoMemory>
    requires { literal.lo < literal.hi }
    ensures { IfOk result (λ b. b ≡ with_literal side.now literal) }
{
    let mut list = Vec::new(alloc);
    add_before(&mut list, side.literals(), literal.block)?;
    list.push(literal)?;
    add_after(&mut list, side.literals(), literal.block)?;
    Ok(PlanBox::from_list(list))
}

/// The literals of the box on these blocks.
pub fn keep(alloc: Global, side: &PlanBox, blocks: &Blocks) -> Result<PlanBox, NoMemory>
    ensures { IfOk result (λ b. b ≡ kept (has blocks.now) side.now) }
{
    let mut list = Vec::new(alloc);
    for l in side.literals() {
        if blocks.has(l.block) {
            list.push(*l)?;
        }
    }
    Ok(PlanBox::from_list(list))
}

/// The literals of the box on the other blocks.
pub fn without(alloc: Global, part: &PlanBox, block: u8) -> Result<PlanBox, NoMemory>
    ensures { IfOk result (λ b. b ≡ kept (others block) part.now) }
{
    let mut list = Vec::new(alloc);
    for l in part.literals() {
        if l.block != block {
            list.push(*l)?;
        }
    }
    Ok(PlanBox::from_list(list))
}

/// The range that the box leaves of a block's codes: its literal on the block, or all of them.
pub fn range_on(codes: &Codes, part: &PlanBox, block: u8) -> Literal
    ensures { IsRangeOn (choices codes.now) part.now block result }
{
    for l in part.literals() {
        if l.block == block {
            return *l;
        }
    }
    Literal {
        block,
        lo: 0,
        hi: count_of(codes, block),
    }
}

/// The box of a side and a range of another block: the literal is left out where it is the block's whole range.
pub fn node_part(
    alloc: Global,
    codes: &Codes,
    side: &PlanBox,
    literal: Literal,
) -> Result<PlanBox, NoMemory>
    requires { (literal.lo < literal.hi) ⊎ ((literal.lo ≡ 0) × (literal.hi ≡ count (choices codes.now) literal.block)) }
    ensures { IfOk result (λ part. part ≡ node_box (choices codes.now) side.now literal.block literal.lo literal.hi) }
{
    if literal.lo == 0 && literal.hi == count_of(codes, literal.block) {
        copy(alloc, side)
    } else {
        with(alloc, side, literal)
    }
}

/// A block whose exact code in the side clashes with the code; None where none does.
pub fn clashing(codes: &Codes, side: &PlanBox, block: u8, code: u32) -> Option<u8>
    requires side { IsBox (choices codes.now) side.now }
    requires free { LeavesFree side.now block }
    requires block { block < blocks (choices codes.now) }
    requires code { code < count (choices codes.now) block }
    ensures { MatchOption result (Clashes (choices codes.now) side.now block code → ⊥)
        (λ a. (d : ℕ) × HasExact side.now a d × (choices codes.now).Clash a d block code) }
{
    for l in side.literals() {
        if l.is_exact(l.block, l.lo) && clash(codes, l.block, l.lo, block, code) {
            return Some(l.block);
        }
    }
    None
}

/// The plan of a box in which each block is exact: its codes, by block.
pub fn plan_of(alloc: Global, codes: &Codes, part: &PlanBox) -> Result<Plan, NoMemory>
    requires part { IsBox (choices codes.now) part.now }
    requires whole { IsWholePlan (choices codes.now) part.now }
    ensures { IfOk result (λ p. (length p ≡ blocks (choices codes.now)) × HasExactAll (choices codes.now) part.now p) }
{
    let mut list = Vec::new(alloc);
    for block in 0..block_count(codes) {
        list.push(range_on(codes, part, block).lo)?;
    }
    Plan::new(alloc, codes, list.as_slice())
}
