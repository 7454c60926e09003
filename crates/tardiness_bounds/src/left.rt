//! What is left to each block beside blocks that stand.
ghost use Rattle.std.specs.Prelude.{◌≡◌, ◌<◌, ◌≤◌, ◌+◌, ◌↔◌, [], All, IfOk, IsTrue, length, take, vec_capacity};
ghost use Rattle.plan_rule.specs.Boxes.{LeavesFree};
ghost use Rattle.tardiness_bounds.specs.Standings.{IsStanding, ClashesAt, literals_of};
ghost use Rattle.tardiness_bounds.specs.Witnesses.{AreFull};
ghost use Rattle.tardiness_bounds.specs.Lefts.{AreLefts, AreLeftsBefore, IsLeft, IsLeftBefore};

use crate::apart::is_apart;
use crate::block::block_at;
use crate::near::of_standing;
use crate::scratch::Scratch;
use crate::standing::Standing;
use crate::tables::YardTables;
use crate::witness::{Witness, witness_from};
use code_table::{Placement, cost_on};
use plan_rule::{block_count, may_clash};
use shape_exact::NoMemory;
use std::alloc::Global;

/// What is left to a block beside blocks that stand.
#[derive(Clone, Copy)]
pub(crate) enum Left {
    /// Nothing: the block itself stands, at a code of this cost.
    Stands(u32),
    /// The codes that are clear of those that stand; the witness is the cheapest.
    Free(Witness),
    /// No code.
    Never,
}

impl Default for Left {
    fn default() -> Left {
        Left::Never
    }
}

/// Whether a block that stands clashes with another block at a placement.
pub(crate) fn clashes(tables: &YardTables<'_>, f: Standing, block: u8, place: Placement) -> bool
    requires standing { IsStanding tables.now.yard f }
    requires block { block < length tables.now.yard.blocks }
    requires turn { place.turn < 4 }
    ensures { IsTrue result ↔ ClashesAt tables.now.yard f block place }
{
    tables.codes().limits();
    if !may_clash(f.place, place) {
        return false;
    }
    !is_apart(tables, of_standing(f), block * 4 + place.turn, place)
}

/// What is left to a block that does not stand. Its slots before `from` are full.
fn left_from(
    tables: &YardTables<'_>,
    list: &[Standing],
    block: u8,
    from: usize,
    scratch: &mut Scratch,
) -> Left
    requires list { All (IsStanding tables.now.yard) list.now }
    requires few { length list.now ≤ 32 }
    requires block { block < length tables.now.yard.blocks }
    requires free { LeavesFree (literals_of list.now) block }
    requires full { AreFull tables.now list.now block from }
    ensures { IsLeft tables.now list.now block result }
{
    match witness_from(tables, list, block, from, scratch) {
        Some(w) => Left::Free(w),
        None => Left::Never,
    }
}

/// What is left to a block where none stands: as the tables keep it, or by a search where they do not.
fn first_left(tables: &YardTables<'_>, block: u8, scratch: &mut Scratch) -> Left
    requires { block < length tables.now.yard.blocks }
    ensures { IsLeft tables.now [] block result }
{
    match tables.first_left(block) {
        Some(left) => left,
        None => left_from(tables, &[], block, 0, scratch),
    }
}

/// What is left to each block where none stands, in a list with so much room.
pub(crate) fn first_lefts(
    alloc: Global,
    tables: &YardTables<'_>,
    room: usize,
    scratch: &mut Scratch,
) -> Result<Vec<Left>, NoMemory>
    ensures lefts { IfOk result (λ lefts. AreLefts tables.now [] lefts.items 0) }
    ensures len { IfOk result (λ lefts. length lefts.items ≡ length tables.now.yard.blocks) }
    ensures room { IfOk result (λ lefts. room ≤ vec_capacity lefts) }
{
    let codes = tables.codes();
    let mut lefts = Vec::with_capacity(alloc, room)?;
    for block in 0..block_count(codes) {
        lefts.push(first_left(tables, block, scratch))?;
    }
    Ok(lefts)
}

/// What is left to a block where one more block stands, the last of the list.
fn next_left(
    tables: &YardTables<'_>,
    list: &[Standing],
    new: Standing,
    block: u8,
    old: Left,
    scratch: &mut Scratch,
) -> Left
    requires list { All (IsStanding tables.now.yard) list.now }
    requires few { length list.now ≤ 32 }
    requires block { block < length tables.now.yard.blocks }
    requires old { IsLeftBefore tables.now list.now new block old }
    ensures { IsLeft tables.now list.now block result }
{
    let codes = tables.codes();
    if block == new.block {
        return Left::Stands(cost_on(block_at(codes, block), new.place.end));
    }
    match old {
        Left::Free(w) => {
            if clashes(tables, new, block, w.place) {
                left_from(tables, list, block, w.slot, scratch)
            } else {
                old
            }
        }
        Left::Stands(cost) => Left::Stands(cost),
        Left::Never => Left::Never,
    }
}

/// Adds what is left to each block where one more block stands, the last of the list, to what was left before, which stands
/// from `from` on.
pub(crate) fn add_lefts(
    tables: &YardTables<'_>,
    list: &[Standing],
    new: Standing,
    from: usize,
    lefts: &mut Vec<Left>,
    scratch: &mut Scratch,
)
    requires list { All (IsStanding tables.now.yard) list.now }
    requires few { length list.now ≤ 32 }
    requires old { AreLeftsBefore tables.now list.now new lefts.old.items from }
    requires room { length lefts.old.items + 32 ≤ vec_capacity lefts.old }
    ensures kept { take (length lefts.old.items) lefts.new.items ≡ lefts.old.items }
    ensures len { length lefts.new.items ≡ length lefts.old.items + length tables.now.yard.blocks }
    ensures lefts { AreLefts tables.now list.now lefts.new.items (length lefts.old.items) }
    ensures room { vec_capacity lefts.old ≤ vec_capacity lefts.new }
{
    for block in 0..block_count(tables.codes()) {
        let left = next_left(
            tables,
            list,
            new,
            block,
            lefts[from + block as usize],
            scratch,
        );
        let Ok(()) = lefts.push(left) else {
            unreachable!()
        };
    }
}
