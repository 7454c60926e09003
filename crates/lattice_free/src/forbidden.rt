//! The columns of a row that obstacles forbid.
ghost use Rattle.std.specs.Prelude.{ℕ, [], ◌≡◌, ◌<◌, ◌≤◌, ◌*◌, ◌↔◌, All, OnOk, IfNone, IfSome};
ghost use Rattle.std.specs.List.Sorted.{IsNonDecreasingBy};
ghost use Rattle.lattice_free.specs.Gaps.{FitsWithin, Misses};
ghost use Rattle.lattice_free.specs.Runs.{place, IsPitch};
ghost use Rattle.lattice_free.specs.Clear.{IsAt, IsClear, AreForbidden};

use crate::columns::columns_between;
use minkowski_obstacles::Obstacle;
use shape_exact::Point;
use std::alloc::AllocError;

/// Columns `from..to` of a row, at least one, that are forbidden.
#[derive(Clone, Copy, Default)]
pub struct Forbidden {
    pub from: u16,
    pub to: u16,
}

/// The columns of a row at which the moving shape overlaps the fixed one, which stands at `at`; None where there is none.
pub fn forbidden_of(
    obstacle: &Obstacle,
    at: Point,
    row: u16,
    pitch: u16,
    columns: u16,
) -> Option<Forbidden>
    requires at { IsAt at }
    requires pitch { IsPitch pitch }
    requires row { row ≤ 401 }
    ensures fits { IfSome result (FitsWithin columns) }
    ensures none { IfNone result ((k : ℕ) → k < columns → IsClear (place pitch row k) obstacle.now at) }
    ensures held { IfSome result (λ s. (k : ℕ) → k < columns → s.from ≤ k → k < s.to
        → IsClear (place pitch row k) obstacle.now at → ⊥) }
    ensures clear { IfSome result (λ s. (k : ℕ) → k < columns → Misses k s
        → IsClear (place pitch row k) obstacle.now at) }
{
    let y = i32::from(row * pitch);
    match obstacle.row(y - at.y) {
        None => None,
        Some((low, high)) => columns_between(low + at.x, high + at.x, pitch, columns),
    }
}

/// Appends the columns of a row that the obstacles forbid, obstacle by obstacle.
fn gather(
    forbidden: &mut Vec<Forbidden>,
    fixed: &[(Obstacle, Point)],
    row: u16,
    pitch: u16,
    columns: u16,
) -> Result<(), AllocError>
    requires empty { forbidden.old.items ≡ [] }
    requires at { All (λ o. IsAt o.1) fixed.now }
    requires pitch { IsPitch pitch }
    requires row { row ≤ 401 }
    ensures { OnOk result (AreForbidden fixed.now pitch row columns forbidden.new.items) }
{
    for o in fixed {
        if let Some(s) = forbidden_of(&o.0, o.1, row, pitch, columns) {
            forbidden.push(s)?;
        }
    }
    Ok(())
}

/// The columns of a row that the obstacles forbid, in the order of their first columns. What the list had before is
/// dropped.
pub(crate) fn forbid(
    forbidden: &mut Vec<Forbidden>,
    fixed: &[(Obstacle, Point)],
    row: u16,
    pitch: u16,
    columns: u16,
) -> Result<(), AllocError>
    requires at { All (λ o. IsAt o.1) fixed.now }
    requires pitch { IsPitch pitch }
    requires row { row ≤ 401 }
    ensures forbidden { OnOk result (AreForbidden fixed.now pitch row columns forbidden.new.items) }
    ensures ascending { OnOk result (IsNonDecreasingBy (λ s. s.from) forbidden.new.items) }
{
    forbidden.clear();
    gather(forbidden, fixed, row, pitch, columns)?;
    forbidden.sort_unstable_by_key(|s| s.from);
    Ok(())
}
