//! Whether a block at a placement is clear of the blocks that stand and of the pieces.
ghost use Rattle.std.specs.Prelude.{◌≡◌, ◌<◌, ◌↔◌, ℕ, All, IsTrue, Some, length, slice_get, true, false};
ghost use Rattle.shape_exact.specs.declared.fixed.Fixed.{Fixed};
ghost use Rattle.tardiness_bounds.specs.Standings.{ClashesAt, IsClear, IsStanding, MeetsAt};

use crate::apart::is_apart;
use crate::left::clashes;
use crate::near::of_piece;
use crate::standing::Standing;
use crate::tables::YardTables;
use code_table::Placement;
use plan_rule::may_meet_piece;
use shape_exact::Fixed;

/// Whether a block at a placement meets a piece, which has this number.
fn meets(tables: &YardTables<'_>, i: usize, piece: &Fixed, block: u8, place: Placement) -> bool
    requires piece { slice_get tables.now.yard.fixed i ≡ Some piece.now }
    requires block { block < length tables.now.yard.blocks }
    requires turn { place.turn < 4 }
    ensures { IsTrue result ↔ MeetsAt tables.now.yard block place i }
{
    if !may_meet_piece(place, piece) {
        return false;
    }
    !is_apart(
        tables,
        of_piece(tables, i, piece),
        block * 4 + place.turn,
        place,
    )
}

/// Whether a block at a placement meets some piece.
pub(crate) fn meets_some(tables: &YardTables<'_>, block: u8, place: Placement) -> bool
    requires block { block < length tables.now.yard.blocks }
    requires turn { place.turn < 4 }
    ensures yes { result ≡ true → (i : ℕ) × MeetsAt tables.now.yard block place i }
    ensures no { result ≡ false → (i : ℕ) → MeetsAt tables.now.yard block place i → ⊥ }
{
    let yard = tables.codes().yard();
    for (i, piece) in yard.fixed().iter().enumerate() {
        if meets(tables, i, piece, block, place) {
            return true;
        }
    }
    false
}

/// Whether a block at a placement clashes with none of those that stand.
fn clashes_with_none(
    tables: &YardTables<'_>,
    list: &[Standing],
    block: u8,
    place: Placement,
) -> bool
    requires list { All (IsStanding tables.now.yard) list.now }
    requires block { block < length tables.now.yard.blocks }
    requires turn { place.turn < 4 }
    ensures yes { result ≡ true → All (λ f. ClashesAt tables.now.yard f block place → ⊥) list.now }
    ensures no { result ≡ false → All (λ f. ClashesAt tables.now.yard f block place → ⊥) list.now → ⊥ }
{
    for f in list {
        if clashes(tables, *f, block, place) {
            return false;
        }
    }
    true
}

/// Whether a block at a placement clashes with none of those that stand, and meets no piece.
pub(crate) fn is_clear(
    tables: &YardTables<'_>,
    list: &[Standing],
    block: u8,
    place: Placement,
) -> bool
    requires list { All (IsStanding tables.now.yard) list.now }
    requires block { block < length tables.now.yard.blocks }
    requires turn { place.turn < 4 }
    ensures yes { result ≡ true → IsClear tables.now.yard list.now block place }
    ensures no { result ≡ false → IsClear tables.now.yard list.now block place → ⊥ }
{
    if !clashes_with_none(tables, list, block, place) {
        return false;
    }
    if meets_some(tables, block, place) {
        return false;
    }
    true
}
