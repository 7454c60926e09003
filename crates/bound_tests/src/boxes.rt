//! Boxes of exact literals and their bounds, where the conditions are tested first.
ghost use Rattle.std.specs.Prelude.{◌≡◌, ◌<◌, ◌≤◌, ◌↔◌, IsTrue};
ghost use Rattle.plan_rule.specs.Boxes.{IsBox, IsLiteral};
ghost use Rattle.plan_rule.specs.Choices.{IsCode, blocks, count};
ghost use Rattle.plan_rule.specs.Yards.{choices};

use code_table::Codes;
use plan_rule::{Literal, PlanBox, block_count};
use shape_exact::NoMemory;
use std::alloc::Global;
use std::process::Abort;
use tardiness_bounds::{Bound, base, best_window, energy, fit};

/// How many codes the block has.
#[tactic(auto, using(plan_rule::proofs::CountLaws::counts))]
pub(crate) fn count_of(codes: &Codes, block: u8) -> u32
    requires { block < blocks (choices codes.now) }
    ensures { result ≡ count (choices codes.now) block }
{
    codes.count(block)
}

/// Whether the block has the code.
pub(crate) fn has_code(codes: &Codes, block: u8, code: u32) -> bool
    ensures { IsTrue result → IsCode (choices codes.now) block code }
{
    block < block_count(codes) && code < count_of(codes, block)
}

fn is_literal(codes: &Codes, l: Literal) -> bool
    ensures { IsTrue result ↔ IsLiteral (choices codes.now) l }
{
    if l.block >= block_count(codes) {
        return false;
    }
    let count = count_of(codes, l.block);
    if count != 1 && l.is_whole(codes) {
        return false;
    }
    l.lo < l.hi && l.hi <= count
}

/// Whether the literals are those of a box in this yard.
pub(crate) fn is_box(codes: &Codes, part: &PlanBox) -> bool
    ensures { IsTrue result ↔ IsBox (choices codes.now) part.now }
{
    for l in part.literals() {
        if !is_literal(codes, *l) {
            return false;
        }
    }
    true
}

/// The box of these codes of blocks, but for those that do not ascend by block.
pub(crate) fn box_of(alloc: Global, literals: &[(u8, u32)]) -> Result<PlanBox, NoMemory> {
    let mut list = Vec::new(alloc);
    let mut next = 0;
    for l in literals {
        if next <= u16::from(l.0) && l.1 < u32::MAX {
            list.push(Literal::exact(l.0, l.1))?;
            next = u16::from(l.0) + 1;
        }
    }
    Ok(PlanBox::from_list(list))
}

/// The base of the box of these codes.
pub(crate) fn base_of(
    rt: &impl Abort,
    alloc: Global,
    codes: &Codes,
    literals: &[(u8, u32)],
) -> Result<Bound, NoMemory> {
    let part = box_of(alloc, literals)?;
    assert!(rt; part.literals().len() == literals.len() && is_box(codes, &part));
    Ok(base(codes, &part))
}

/// The fit of the box of these codes.
pub(crate) fn fit_of(
    rt: &impl Abort,
    alloc: Global,
    codes: &Codes,
    literals: &[(u8, u32)],
) -> Result<Bound, NoMemory> {
    let part = box_of(alloc, literals)?;
    assert!(rt; part.literals().len() == literals.len() && is_box(codes, &part));
    fit(alloc, codes, &part)
}

/// Whether the days are the first and the last of a window.
#[tactic(auto, unfolding(plan_rule::specs::Yards::choices))]
fn is_window(codes: &Codes, from: u16, to: u16) -> bool
    ensures { IsTrue result ↔ ((from ≤ to) × (to < (choices codes.now).days)) }
{
    from <= to && to < codes.yard().days()
}

/// The energy of the box of these codes in a window.
pub(crate) fn energy_of(
    rt: &impl Abort,
    alloc: Global,
    codes: &Codes,
    literals: &[(u8, u32)],
    window: (u16, u16),
) -> Result<Bound, NoMemory> {
    let part = box_of(alloc, literals)?;
    assert!(rt; part.literals().len() == literals.len() && is_box(codes, &part));
    assert!(rt; is_window(codes, window.0, window.1));
    Ok(energy(codes, &part, window.0, window.1))
}

/// The best window of the box of these codes.
pub(crate) fn window_of(
    rt: &impl Abort,
    alloc: Global,
    codes: &Codes,
    literals: &[(u8, u32)],
) -> Result<Option<(u16, u16)>, NoMemory> {
    let part = box_of(alloc, literals)?;
    assert!(rt; part.literals().len() == literals.len() && is_box(codes, &part));
    Ok(best_window(codes, &part))
}
