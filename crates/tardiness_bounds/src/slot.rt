//! Slots: where a block may start, in the order of what it costs.
ghost use Rattle.std.specs.Prelude.{◌≡◌, ◌<◌, ◌*◌, ℕ, length, All, IfOk, IfNone, IfSome};
ghost use Rattle.shape_exact.specs.Yards.{IsBlock};
ghost use Rattle.code_table.specs.Stands.{EndsOn};
ghost use Rattle.tardiness_bounds.specs.Slots.{AreSlots, HaveStarts, IsSlot, IsSlotOf};

use code_table::{Codes, cost_on};
use shape_exact::{Block, NoMemory};
use std::alloc::Global;

/// A start of a block on a plate, the day on which it ends there, and what it costs.
#[derive(Clone, Copy, Default, Drop)]
pub(crate) struct Slot {
    pub start: u16,
    pub end: u16,
    pub plate: u8,
    pub cost: u32,
}

/// The slot of a block that starts on a day of a plate. None where it has no end there, or is not released yet.
pub(crate) fn slot_at(codes: &Codes, block: &Block, start: u16, plate: u8) -> Option<Slot>
    requires block { IsBlock block.now }
    requires start { start < codes.now.days }
    requires plate { plate < length codes.now.plates }
    ensures none { IfNone result ((end : ℕ) → EndsOn codes.now block.now start plate end → ⊥) }
    ensures some { IfSome result (IsSlotOf codes.now block.now start plate) }
{
    if start < block.release {
        return None;
    }
    match codes.calendar(plate).end(start, block.duration) {
        None => None,
        Some(end) => Some(Slot {
            start,
            end,
            plate,
            cost: cost_on(block, end),
        }),
    }
}

/// The slots of a block, by start and then by plate.
fn slots_by_start(alloc: Global, codes: &Codes, block: &Block) -> Result<Vec<Slot>, NoMemory>
    requires block { IsBlock block.now }
    ensures each { IfOk result (λ slots. All (IsSlot codes.now block.now) slots.items) }
    ensures all { IfOk result (λ slots. HaveStarts codes.now block.now (codes.now.days * length codes.now.plates) slots.items) }
{
    let plates = codes.yard().plates().len();
    let count = codes.yard().days() as usize * plates;
    let mut slots = Vec::with_capacity(alloc, count)?;
    for k in 0..count {
        if let Some(slot) = slot_at(codes, block, (k / plates) as u16, (k % plates) as u8) {
            slots.push(slot)?;
        }
    }
    Ok(slots)
}

/// The slots of a block, the cheapest first.
pub(crate) fn slots_of(alloc: Global, codes: &Codes, block: &Block) -> Result<Vec<Slot>, NoMemory>
    requires block { IsBlock block.now }
    ensures { IfOk result (λ slots. AreSlots codes.now block.now slots.items) }
{
    let mut slots = slots_by_start(alloc, codes, block)?;
    slots.sort_unstable_by_key(|slot| slot.cost);
    Ok(slots)
}
