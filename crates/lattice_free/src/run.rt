//! Free columns of a row.
ghost use Rattle.std.specs.Prelude.{◌≡◌, ◌<◌, ◌≤◌, ◌*◌, ◌++◌, ℕ, true, false, OnOk, find};
ghost use Rattle.lattice_free.specs.Runs.{place, run_points, IsRun, IsPitch};
ghost use Rattle.lattice_free.specs.Gaps.{gaps};
ghost use Rattle.lattice_free.specs.Order.{is_from};

use crate::columns::multiples_below;
use crate::forbidden::Forbidden;
use shape_exact::Point;
use std::alloc::AllocError;

/// The columns `from..to` of a row, all free. There is at least one.
#[derive(Clone, Copy, Default, Drop)]
pub(crate) struct Run {
    pub(crate) row: u16,
    pub(crate) from: u16,
    pub(crate) to: u16,
}

/// The position of a column of a row.
pub(crate) fn place(pitch: u16, row: u16, column: u16) -> Point
    requires pitch { pitch ≤ 100 }
    requires row { row ≤ 401 }
    requires column { column ≤ 401 }
    ensures { result ≡ place pitch row column }
{
    Point {
        x: i32::from(column * pitch),
        y: i32::from(row * pitch),
    }
}

/// Appends the runs that the forbidden columns, ascending by their first columns, leave of a row.
pub(crate) fn add_gaps(
    runs: &mut Vec<Run>,
    row: u16,
    columns: u16,
    forbidden: &[Forbidden],
) -> Result<(), AllocError>
    ensures { OnOk result (runs.new.items ≡ runs.old.items ++ gaps row 0 columns forbidden.now) }
{
    let mut from = 0;
    for s in forbidden {
        if from < s.from {
            runs.push(Run {
                row,
                from,
                to: s.from,
            })?;
        }
        if from < s.to {
            from = s.to;
        }
    }
    if from < columns {
        runs.push(Run {
            row,
            from,
            to: columns,
        })?;
    }
    Ok(())
}

/// The run's first column at or after the position of y and x, or one past its columns.
fn first_column(run: &Run, pitch: u16, y: u16, x: u16) -> u16
    requires pitch { IsPitch pitch }
    requires run { IsRun run.now }
    ensures low { run.now.from ≤ result }
    ensures before { (k : ℕ) → k < result → k < run.now.to → run.now.from ≤ k
        → is_from y x (place pitch run.now.row k) ≡ false }
    ensures at { result < run.now.to → is_from y x (place pitch run.now.row result) ≡ true }
{
    let at = run.row * pitch;
    if at < y {
        run.to
    } else if at == y {
        run.from.max(multiples_below(x, pitch))
    } else {
        run.from
    }
}

/// The run's first position at or after the one of y and x.
pub(crate) fn first_in(run: &Run, pitch: u16, y: u16, x: u16) -> Option<Point>
    requires pitch { IsPitch pitch }
    requires run { IsRun run.now }
    ensures { result ≡ find (is_from y x) (run_points pitch run.now) }
{
    let column = first_column(run, pitch, y, x);
    if column < run.to {
        Some(place(pitch, run.row, column))
    } else {
        None
    }
}
