//! Free positions of a block on a plate, in one turn.
ghost use Rattle.std.specs.Prelude.{◌≡◌, ◌<◌, ◌≤◌, ℕ, pos, negsuc, ◌+ℤ◌, ◌≤ℤ◌, All, IfNone, IfSome, length};
ghost use Rattle.lattice_free.specs.Clear.{AreClear, AreForbidden, IsClear};
ghost use Rattle.lattice_free.specs.Gaps.{FitsWithin, Misses};
ghost use Rattle.lattice_free.specs.Runs.{IsPitch, place};
ghost use Rattle.tardiness_bounds.specs.Firsts.{IsOnFrom};
ghost use Rattle.tardiness_bounds.specs.Footprints.{pair_at, turned_count};
ghost use Rattle.tardiness_bounds.specs.Neighbours.{IsNeighbour, obstacles_of, spot_of};

use crate::gap::first_gap;
use crate::lattice::Lattice;
use crate::near::Neighbour;
use crate::tables::YardTables;
use arrayvec::ArrayVec;
use lattice_free::{Forbidden, columns_between};

/// The forbidden columns of a row, at most one range of them beside each neighbour.
pub(crate) type ForbiddenColumns = ArrayVec<Forbidden, 80>;

/// An end of a row, moved to where a neighbour stands.
fn moved(end: i32, by: u16) -> i32
    requires low { negsuc 1999 ≤ℤ end }
    requires high { end ≤ℤ pos 2000 }
    requires by { by ≤ 400 }
    ensures value { result ≡ end +ℤ pos by }
    ensures high { result ≤ℤ pos 2400 }
{
    end + i32::from(by)
}

/// The columns of a row at which the footprint of a block in a turn is not clear of a neighbour; None where there is none.
fn forbidden_beside(
    tables: &YardTables<'_>,
    n: Neighbour,
    moving: u8,
    pitch: u16,
    row: u16,
    columns: u16,
) -> Option<Forbidden>
    requires near { IsNeighbour tables.now.yard n }
    requires moving { moving < turned_count tables.now.yard }
    requires pitch { IsPitch pitch }
    requires row { row ≤ 401 }
    ensures fits { IfSome result (FitsWithin columns) }
    ensures none { IfNone result ((k : ℕ) → k < columns
        → IsClear (place pitch row k) (pair_at tables.now.yard n.footprint moving) (spot_of n)) }
    ensures held { IfSome result (λ s. (k : ℕ) → k < columns → s.from ≤ k → k < s.to
        → IsClear (place pitch row k) (pair_at tables.now.yard n.footprint moving) (spot_of n) → ⊥) }
    ensures clear { IfSome result (λ s. (k : ℕ) → k < columns → Misses k s
        → IsClear (place pitch row k) (pair_at tables.now.yard n.footprint moving) (spot_of n)) }
{
    match tables.row(n.footprint, moving, row * pitch, n.y) {
        None => None,
        Some((low, high)) => columns_between(moved(low, n.x), moved(high, n.x), pitch, columns),
    }
}

/// Gathers the columns of a row at which the footprint of a block in a turn is not clear of those near it, in place of what
/// the list had.
fn forbid(
    tables: &YardTables<'_>,
    near: &[Neighbour],
    moving: u8,
    pitch: u16,
    row: u16,
    columns: u16,
    forbidden: &mut ForbiddenColumns,
)
    requires near { All (IsNeighbour tables.now.yard) near.now }
    requires few { length near.now ≤ 80 }
    requires moving { moving < turned_count tables.now.yard }
    requires pitch { IsPitch pitch }
    requires row { row ≤ 401 }
    ensures { AreForbidden (obstacles_of tables.now.yard moving near.now) pitch row columns forbidden.new.items }
{
    forbidden.clear();
    for n in near {
        if let Some(s) = forbidden_beside(tables, *n, moving, pitch, row, columns) {
            forbidden.push(s);
        }
    }
}

/// The first row and the first column in it, from a row and a column on, at which the footprint of a block in a
/// turn is clear of those near it. The list of forbidden columns is written anew for each row.
pub(crate) fn first_clear(
    tables: &YardTables<'_>,
    near: &[Neighbour],
    moving: u8,
    lattice: Lattice,
    from: (u16, u16),
    forbidden: &mut ForbiddenColumns,
) -> Option<(u16, u16)>
    requires near { All (IsNeighbour tables.now.yard) near.now }
    requires few { length near.now ≤ 80 }
    requires moving { moving < turned_count tables.now.yard }
    requires pitch { IsPitch lattice.pitch }
    requires rows { lattice.rows ≤ 401 }
    ensures none { IfNone result ((j k : ℕ) → j < lattice.rows → k < lattice.columns → IsOnFrom from.0 from.1 j k
        → AreClear (obstacles_of tables.now.yard moving near.now) (place lattice.pitch j k) → ⊥) }
    ensures some { IfSome result (λ at. (at.0 < lattice.rows) × (at.1 < lattice.columns) × IsOnFrom from.0 from.1 at.0 at.1
        × AreClear (obstacles_of tables.now.yard moving near.now) (place lattice.pitch at.0 at.1)) }
    ensures first { IfSome result (λ at. (j k : ℕ) → j < lattice.rows → k < lattice.columns → IsOnFrom from.0 from.1 j k
        → AreClear (obstacles_of tables.now.yard moving near.now) (place lattice.pitch j k) → IsOnFrom at.0 at.1 j k) }
{
    let mut column = from.1;
    for row in from.0..lattice.rows {
        forbid(
            tables,
            near,
            moving,
            lattice.pitch,
            row,
            lattice.columns,
            forbidden,
        );
        if let Some(k) = first_gap(forbidden.as_slice(), lattice.columns, column) {
            return Some((row, k));
        }
        column = 0;
    }
    None
}
