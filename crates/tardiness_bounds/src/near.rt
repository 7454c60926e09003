//! What stands near a slot.
ghost use Rattle.std.specs.Prelude.{◌≡◌, ◌<◌, ◌≤◌, All, Some, length, slice_get};
ghost use Rattle.tardiness_bounds.specs.Neighbours.{AreNear, IsNeighbour, of_piece, of_standing};
ghost use Rattle.tardiness_bounds.specs.Standings.{IsStanding};

use crate::standing::Standing;
use crate::tables::YardTables;
use arrayvec::ArrayVec;
use code_table::Placement;
use plan_rule::{may_clash, may_meet_piece};
use shape_exact::Fixed;

/// A footprint that stands on a plate, by its number, and where it stands.
#[derive(Clone, Copy, Default)]
pub(crate) struct Neighbour {
    pub footprint: u8,
    pub x: u16,
    pub y: u16,
}

/// The blocks that stand, at most 32, and the pieces, at most 48.
pub(crate) type Neighbours = ArrayVec<Neighbour, 80>;

/// A block that stands, by its footprint.
pub(crate) fn of_standing(f: Standing) -> Neighbour
    requires block { f.block < 32 }
    requires turn { f.place.turn < 4 }
    ensures { result ≡ of_standing f }
{
    Neighbour {
        footprint: f.block * 4 + f.place.turn,
        x: f.place.x,
        y: f.place.y,
    }
}

/// The piece with this number, by its footprint.
pub(crate) fn of_piece(tables: &YardTables<'_>, i: usize, piece: &Fixed) -> Neighbour
    requires { slice_get tables.now.yard.fixed i ≡ Some piece.now }
    ensures value { result ≡ of_piece tables.now.yard i piece.now }
    ensures neighbour { IsNeighbour tables.now.yard result }
{
    let turned = tables.codes().yard().blocks().len() * 4;
    Neighbour {
        footprint: (turned + i) as u8,
        x: piece.x,
        y: piece.y,
    }
}

/// Gathers the blocks that stand that are on the placement's plate on some of its days.
fn near_blocks(tables: &YardTables<'_>, list: &[Standing], place: Placement, near: &mut Neighbours)
    requires list { All (IsStanding tables.now.yard) list.now }
    requires few { length list.now ≤ 32 }
    ensures near { AreNear tables.now.yard place list.now 0 near.new.items }
    ensures each { All (IsNeighbour tables.now.yard) near.new.items }
    ensures few { length near.new.items ≤ 32 }
{
    tables.codes().limits();
    near.clear();
    for f in list {
        if may_clash(f.place, place) {
            near.push(of_standing(*f));
        }
    }
}

/// Gathers the blocks that stand, and the pieces, that are on the placement's plate on some of its days, in place of what
/// the list had.
pub(crate) fn near_to(
    tables: &YardTables<'_>,
    list: &[Standing],
    place: Placement,
    near: &mut Neighbours,
)
    requires list { All (IsStanding tables.now.yard) list.now }
    requires few { length list.now ≤ 32 }
    ensures near { AreNear tables.now.yard place list.now (length tables.now.yard.fixed) near.new.items }
    ensures each { All (IsNeighbour tables.now.yard) near.new.items }
{
    near_blocks(tables, list, place, near);
    let yard = tables.codes().yard();
    for (i, piece) in yard.fixed().iter().enumerate() {
        if may_meet_piece(place, piece) {
            near.push(of_piece(tables, i, piece));
        }
    }
}
