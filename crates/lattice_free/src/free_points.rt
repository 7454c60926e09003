//! The free positions, one after another.
ghost use Rattle.std.specs.Prelude.{◌≡◌};
ghost use Rattle.std.specs.Iterator.{YieldsFirst, item_count};
ghost use Rattle.lattice_free.specs.Runs.{points_of, AreRuns};
ghost use Rattle.lattice_free.specs.Left.{first_from};

use crate::run::{Run, place};
use shape_exact::Point;
use std::marker::Model;

/// The free positions of a plate that are left to come, in the order of y and then of x.
#[derive(Drop)]
pub struct FreePoints<'a> {
    runs: &'a [Run],
    pitch: u16,
    column: u16,
}

impl<'a> Model for FreePoints<'a> {
    ghost use Rattle.std.specs.Prelude.{List};
    ghost use Rattle.shape_exact.specs.declared.point.Point.{Point};
    ghost use Rattle.lattice_free.specs.Left.{left_of, AreLeft};

    ghost Value = { List Point };

    ghost view = { λ s. left_of s.pitch s.column s.runs.now };

    ghost invariant = { λ s. AreLeft s.pitch s.column s.runs.now };
}

/// The first column of the first run.
fn first_column(runs: &[Run]) -> u16
    ensures { result ≡ first_from runs.now }
{
    match runs.first() {
        Some(run) => run.from,
        None => 0,
    }
}

impl<'a> FreePoints<'a> {
    /// The positions of the runs.
    pub(crate) fn of(runs: &'a [Run], pitch: u16) -> FreePoints<'a>
        requires { AreRuns pitch runs.now }
        ensures { result ≡ points_of pitch runs.now }
    {
        FreePoints {
            runs,
            pitch,
            column: first_column(runs),
        }
    }
}

impl<'a> Iterator for FreePoints<'a> {
    type Item = Point;

    ghost next_gives = { YieldsFirst (λ s. s) };

    ghost remaining = { item_count (λ s. s) };

    fn next(&mut self) -> Option<Point> {
        let (run, later) = self.runs.split_first()?;
        let position = place(self.pitch, run.row, self.column);
        self.column += 1;
        if self.column == run.to {
            self.runs = later;
            self.column = first_column(later);
        }
        Some(position)
    }
}
