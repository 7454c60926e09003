//! Sides of a sum.
ghost use Rattle.std.specs.Prelude.{◌≡◌, ◌≤◌};
ghost use Rattle.minkowski_obstacles.specs.Sums.{IsSmall, fixed_side, moving_side, value};
ghost use Rattle.shape_exact.specs.Separation.{IsWithin};

use crate::edge::{Edge, product};
use shape_exact::Point;

/// A side of a sum: a point of its line, and its direction. The inner side is to the left.
#[derive(Clone, Copy, Default)]
pub(crate) struct Side {
    pub(crate) at: Point,
    pub(crate) along: Point,
}

impl Side {
    /// The side that an edge of the fixed shape gives, with the vertex of the moving one furthest inside it.
    pub(crate) fn of_fixed(e: Edge, m: Point) -> Side
        requires from { IsWithin 2000 e.from }
        requires to { IsWithin 2000 e.to }
        requires m { IsWithin 2000 m }
        ensures is { result ≡ fixed_side e m }
        ensures small { IsSmall result }
    {
        Side {
            at: Point {
                x: e.from.x - m.x,
                y: e.from.y - m.y,
            },
            along: Point {
                x: e.to.x - e.from.x,
                y: e.to.y - e.from.y,
            },
        }
    }

    /// The side that an edge of the moving shape, mirrored, gives, with the vertex of the fixed one furthest inside it.
    pub(crate) fn of_moving(f: Edge, u: Point) -> Side
        requires from { IsWithin 2000 f.from }
        requires to { IsWithin 2000 f.to }
        requires u { IsWithin 2000 u }
        ensures is { result ≡ moving_side f u }
        ensures small { IsSmall result }
    {
        Side {
            at: Point {
                x: u.x - f.from.x,
                y: u.y - f.from.y,
            },
            along: Point {
                x: f.from.x - f.to.x,
                y: f.from.y - f.to.y,
            },
        }
    }

    /// Above 0 where the offset is strictly on the inner side.
    pub(crate) fn value(self, w: Point) -> i32
        requires small { IsSmall self }
        requires w { IsWithin 10000 w }
        ensures { result ≡ value self w }
    {
        product(self.along.x, self.along.y, w.x - self.at.x, w.y - self.at.y)
    }
}
