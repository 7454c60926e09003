//! The cheapest free placement of a block beside blocks that stand and pieces.
ghost use Rattle.std.specs.Prelude.{◌≡◌, ◌<◌, ◌≤◌, All, IfNone, IfSome, length, slice_get, unwrap_or, Some, true, false};
ghost use Rattle.shape_exact.specs.declared.block.Block.{Block};
ghost use Rattle.code_table.specs.declared.placement.Placement.{Placement};
ghost use Rattle.tardiness_bounds.specs.Neighbours.{IsNeighbour};
ghost use Rattle.tardiness_bounds.specs.Slots.{IsSlot, place_of_slot};
ghost use Rattle.tardiness_bounds.specs.Standings.{IsStanding};
ghost use Rattle.tardiness_bounds.specs.Witnesses.{AreFull, HasNoPlace, IsFree, IsFreeNear, IsFull, IsFullNear, IsWitness};

use crate::ground::{ForbiddenColumns, first_clear};
use crate::near::{Neighbour, near_to};
use crate::scratch::Scratch;
use crate::slot::Slot;
use crate::standing::Standing;
use crate::tables::YardTables;
use code_table::Placement;

/// A free placement of a block in its first slot that is not full, the number of this slot, and what it costs.
#[derive(Clone, Copy)]
pub(crate) struct Witness {
    pub slot: usize,
    pub cost: u32,
    pub place: Placement,
}

/// The first placement of a block in a slot, in one turn, that is clear of what stands near.
fn first_in_turn(
    tables: &YardTables<'_>,
    near: &[Neighbour],
    block: u8,
    slot: Slot,
    turn: u8,
    forbidden: &mut ForbiddenColumns,
) -> Option<Placement>
    requires near { All (IsNeighbour tables.now.yard) near.now }
    requires few { length near.now ≤ 80 }
    requires block { block < length tables.now.yard.blocks }
    requires slot { (b : Block) → slice_get tables.now.yard.blocks block ≡ Some b → IsSlot tables.now.yard b slot }
    requires turn { turn < 4 }
    requires allowed { (b : Block) → slice_get tables.now.yard.blocks block ≡ Some b → unwrap_or (slice_get b.turns turn) false ≡ true }
    ensures none { IfNone result ((p : Placement) → p.turn ≡ turn → IsFreeNear tables.now.yard near.now block slot p → ⊥) }
    ensures some { IfSome result (IsFreeNear tables.now.yard near.now block slot) }
{
    tables.codes().limits();
    let moving = block * 4 + turn;
    let lattice = tables.lattice(slot.plate, moving);
    match first_clear(tables, near, moving, lattice, (0, 0), forbidden) {
        None => None,
        Some((row, column)) => Some(Placement {
            start: slot.start,
            end: slot.end,
            plate: slot.plate,
            turn,
            y: row * lattice.pitch,
            x: column * lattice.pitch,
        }),
    }
}

/// Whether the block may stand in the turn.
fn may_turn(tables: &YardTables<'_>, block: u8, turn: u8) -> bool
    requires block { block < length tables.now.yard.blocks }
    requires turn { turn < 4 }
    ensures { (b : Block) → slice_get tables.now.yard.blocks block ≡ Some b → result ≡ unwrap_or (slice_get b.turns turn) false }
{
    let blocks = tables.codes().yard().blocks();
    blocks[block as usize].turns[turn as usize]
}

/// The first placement of a block in a slot that is clear of what stands near.
fn first_in_slot(
    tables: &YardTables<'_>,
    near: &[Neighbour],
    block: u8,
    slot: Slot,
    forbidden: &mut ForbiddenColumns,
) -> Option<Placement>
    requires near { All (IsNeighbour tables.now.yard) near.now }
    requires few { length near.now ≤ 80 }
    requires block { block < length tables.now.yard.blocks }
    requires slot { (b : Block) → slice_get tables.now.yard.blocks block ≡ Some b → IsSlot tables.now.yard b slot }
    ensures none { IfNone result (IsFullNear tables.now.yard near.now block slot) }
    ensures some { IfSome result (IsFreeNear tables.now.yard near.now block slot) }
{
    for turn in 0..4u8 {
        if may_turn(tables, block, turn) {
            let found = first_in_turn(tables, near, block, slot, turn, forbidden);
            if found.is_some() {
                return found;
            }
        }
    }
    None
}

/// The slot as a placement.
pub(crate) fn place_of_slot(slot: Slot) -> Placement
    ensures { result ≡ place_of_slot slot }
{
    Placement {
        start: slot.start,
        end: slot.end,
        plate: slot.plate,
        turn: 0,
        y: 0,
        x: 0,
    }
}

/// The first free placement of a block in a slot, beside the blocks that stand and the pieces.
fn free_in(
    tables: &YardTables<'_>,
    list: &[Standing],
    block: u8,
    slot: Slot,
    scratch: &mut Scratch,
) -> Option<Placement>
    requires list { All (IsStanding tables.now.yard) list.now }
    requires few { length list.now ≤ 32 }
    requires block { block < length tables.now.yard.blocks }
    requires slot { (b : Block) → slice_get tables.now.yard.blocks block ≡ Some b → IsSlot tables.now.yard b slot }
    ensures none { IfNone result (IsFull tables.now.yard list.now block slot) }
    ensures some { IfSome result (IsFree tables.now.yard list.now block slot) }
{
    near_to(tables, list, place_of_slot(slot), &mut scratch.near);
    let near = scratch.near.as_slice();
    first_in_slot(tables, near, block, slot, &mut scratch.forbidden)
}

/// The witness of a block beside the blocks that stand. Its slots before `from` are full.
pub(crate) fn witness_from(
    tables: &YardTables<'_>,
    list: &[Standing],
    block: u8,
    from: usize,
    scratch: &mut Scratch,
) -> Option<Witness>
    requires list { All (IsStanding tables.now.yard) list.now }
    requires few { length list.now ≤ 32 }
    requires block { block < length tables.now.yard.blocks }
    requires full { AreFull tables.now list.now block from }
    ensures none { IfNone result (HasNoPlace tables.now.yard list.now block) }
    ensures some { IfSome result (IsWitness tables.now list.now block) }
{
    let slots = tables.slots(block);
    for i in from..slots.len() {
        let slot = slots[i];
        if let Some(place) = free_in(tables, list, block, slot, scratch) {
            return Some(Witness {
                slot: i,
                cost: slot.cost,
                place,
            });
        }
    }
    None
}
