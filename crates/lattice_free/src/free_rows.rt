//! The free positions of a plate.
ghost use Rattle.std.specs.Prelude.{◌≡◌, ◌≤◌, length, find, All, IfOk};
ghost use Rattle.shape_exact.specs.Shapes.{reach_x, reach_y};
ghost use Rattle.lattice_free.specs.Order.{is_from};
ghost use Rattle.lattice_free.specs.Clear.{IsGround, IsAt};
ghost use Rattle.lattice_free.specs.FreePositions.{AreFree};
ghost use Rattle.lattice_free.specs.Runs.{points_of, AreRuns, IsPitch};
ghost use Rattle.lattice_free.specs.Grid.{IsGrid};

use crate::columns::steps;
use crate::forbidden::forbid;
use crate::free_points::FreePoints;
use crate::run::{Run, add_gaps, first_in};
use minkowski_obstacles::Obstacle;
use shape_exact::{NoMemory, Plate, Point, Shape};
use std::alloc::{AllocError, Global};
use std::marker::Model;

/// The free positions of a plate for a shape among fixed ones. Contracts see it as their list, in the order of y and
/// then of x.
#[derive(Drop)]
pub struct FreeRows {
    pitch: u16,
    runs: Vec<Run>,
}

impl Model for FreeRows {
    ghost use Rattle.std.specs.Prelude.{List};
    ghost use Rattle.shape_exact.specs.declared.point.Point.{Point};
    ghost use Rattle.lattice_free.specs.Runs.{points_of, AreRuns};

    ghost Value = { List Point };

    ghost view = { λ f. points_of f.pitch f.runs.items };

    ghost invariant = { λ f. AreRuns f.pitch f.runs.items };
}

/// The first position of the runs at or after the one of y and x.
fn first_of(runs: &[Run], pitch: u16, y: u16, x: u16) -> Option<Point>
    requires { AreRuns pitch runs.now }
    ensures { result ≡ find (is_from y x) (points_of pitch runs.now) }
{
    for run in runs {
        let found = first_in(run, pitch, y, x);
        if found.is_some() {
            return found;
        }
    }
    None
}

/// How many positions the runs have.
fn count_of(runs: &[Run], pitch: u16) -> u32
    requires { AreRuns pitch runs.now }
    ensures { result ≡ length (points_of pitch runs.now) }
{
    let mut total = 0;
    for run in runs {
        total += u32::from(run.to - run.from);
    }
    total
}

/// How far the shape reaches to the right and upwards.
fn reach(shape: &Shape) -> (u16, u16)
    ensures x { result.0 ≡ reach_x shape.now }
    ensures y { result.1 ≡ reach_y shape.now }
{
    let (width, height) = shape.extent();
    (width as u16, height as u16)
}

/// The free runs of so many rows of so many columns.
fn runs_of(
    alloc: Global,
    fixed: &[(Obstacle, Point)],
    pitch: u16,
    rows: u16,
    columns: u16,
) -> Result<Vec<Run>, AllocError>
    requires at { All (λ o. IsAt o.1) fixed.now }
    requires pitch { IsPitch pitch }
    requires rows { rows ≤ 401 }
    requires columns { columns ≤ 401 }
    ensures { IfOk result (λ runs. IsGrid fixed.now pitch columns rows runs.items) }
{
    let mut runs = Vec::new(alloc);
    let mut forbidden = Vec::new(alloc);
    for row in 0..rows {
        forbid(&mut forbidden, fixed, row, pitch, columns)?;
        add_gaps(&mut runs, row, columns, &forbidden)?;
    }
    Ok(runs)
}

impl FreeRows {
    /// The free positions of the plate for the shape among the fixed ones: each obstacle is one of a fixed footprint
    /// against `shape`, with the fixed footprint's position. Takes memory for at most one run more than there are
    /// obstacles in each row of the pitch. Costs a row's forbidden columns, sorted, for each row of the pitch.
    pub fn new(
        alloc: Global,
        plate: &Plate,
        shape: &Shape,
        fixed: &[(Obstacle, Point)],
    ) -> Result<FreeRows, NoMemory>
        requires plate { IsGround plate.now }
        requires moving { All (λ o. o.0.moving ≡ shape.now) fixed.now }
        requires at { All (λ o. IsAt o.1) fixed.now }
        ensures { IfOk result (λ positions. AreFree plate.now shape.now fixed.now positions) }
    {
        let (width, height) = reach(shape);
        let columns = steps(plate.width, width, plate.pitch);
        let rows = steps(plate.height, height, plate.pitch);
        let runs = runs_of(alloc, fixed, plate.pitch, rows, columns)?;
        Ok(FreeRows {
            pitch: plate.pitch,
            runs,
        })
    }

    /// The first free position at or after the one of `y` and `x`, in the order of y and then of x. One pass over the
    /// runs at most.
    pub fn first_from(&self, y: u16, x: u16) -> Option<Point>
        ensures { result ≡ find (is_from y x) self.now }
    {
        first_of(&self.runs, self.pitch, y, x)
    }

    /// How many free positions there are. One pass over the runs.
    pub fn count(&self) -> u32
        ensures { result ≡ length self.now }
    {
        count_of(&self.runs, self.pitch)
    }

    /// The free positions, in the order of y and then of x.
    pub fn points(&self) -> FreePoints<'_>
        ensures { result ≡ self.now }
    {
        FreePoints::of(&self.runs, self.pitch)
    }
}
