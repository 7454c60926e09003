//! Whether a footprint is clear of those that stand near it.
ghost use Rattle.std.specs.Prelude.{◌≡◌, ◌<◌, ◌↔◌, ◌⊎◌, ◌<ℤ◌, All, IsTrue, true, false};
ghost use Rattle.lattice_free.specs.Clear.{AreClear, IsClear};
ghost use Rattle.plan_rule.specs.Clashes.{place_of};
ghost use Rattle.tardiness_bounds.specs.Footprints.{pair_at, turned_count};
ghost use Rattle.tardiness_bounds.specs.Neighbours.{IsNeighbour, obstacles_of, spot_of};

use crate::near::Neighbour;
use crate::rows::way;
use crate::tables::YardTables;
use code_table::Placement;

/// Whether a number is none from `low` to `high`.
fn is_outside(x: i32, low: i32, high: i32) -> bool
    ensures { IsTrue result ↔ ((x <ℤ low) ⊎ (high <ℤ x)) }
{
    x < low || high < x
}

/// Whether the footprint of a block in a turn, at a placement, is clear of a neighbour.
pub(crate) fn is_apart(tables: &YardTables<'_>, n: Neighbour, moving: u8, place: Placement) -> bool
    requires near { IsNeighbour tables.now.yard n }
    requires moving { moving < turned_count tables.now.yard }
    ensures { IsTrue result ↔ IsClear (place_of place) (pair_at tables.now.yard n.footprint moving) (spot_of n) }
{
    match tables.row(n.footprint, moving, place.y, n.y) {
        None => true,
        Some((low, high)) => is_outside(way(place.x, n.x), low, high),
    }
}

/// Whether it is clear of all that stand near.
pub(crate) fn are_apart(
    tables: &YardTables<'_>,
    near: &[Neighbour],
    moving: u8,
    place: Placement,
) -> bool
    requires near { All (IsNeighbour tables.now.yard) near.now }
    requires moving { moving < turned_count tables.now.yard }
    ensures yes { result ≡ true → AreClear (obstacles_of tables.now.yard moving near.now) (place_of place) }
    ensures no { result ≡ false → AreClear (obstacles_of tables.now.yard moving near.now) (place_of place) → ⊥ }
{
    for n in near {
        if !is_apart(tables, *n, moving, place) {
            return false;
        }
    }
    true
}
