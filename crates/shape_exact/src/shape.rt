//! Footprints.
ghost use Rattle.std.specs.Prelude.{◌≡◌, ◌≤◌, pos};
ghost use Rattle.shape_exact.specs.Shapes.{IsShape, reach_x, reach_y};

use crate::Point;
use crate::corner::upper_corner;
use arrayvec::ArrayVec;
use std::marker::Model;

/// Why a list of points is no footprint, with numbers of vertices and of edges; edge e goes from vertex e to the next.
#[derive(Clone, Copy, Debug, PartialEq, Eq)]
pub enum ShapeFault {
    /// Fewer than 3 points.
    TooFew,
    /// More than 16 points.
    TooMany,
    /// The first vertex with a coordinate below -1000 or above 1000.
    Range(u8),
    /// The first pair of equal vertices.
    Equal(u8, u8),
    /// The first edge and vertex whose cross product has another sign than the first one that is not 0.
    NotConvex(u8, u8),
    /// All cross products are 0.
    Flat,
}

/// A footprint: 3 to 16 vertices of a convex shape, counterclockwise, with least x and least y 0.
#[derive(Clone, Drop)]
pub struct Shape {
    pub(crate) points: ArrayVec<Point, 16>,
}

impl Model for Shape {
    ghost use Rattle.std.specs.Prelude.{List};
    ghost use Rattle.shape_exact.specs.declared.point.Point.{Point};
    ghost use Rattle.shape_exact.specs.Shapes.{IsShape};

    ghost Value = { List Point };

    ghost view = { λ s. s.points.items };

    ghost invariant = { λ s. IsShape s.points.items };
}

impl Shape {
    /// The vertices, counterclockwise, with least x and least y 0.
    pub fn points(&self) -> &[Point]
        ensures value { result.now ≡ self.now }
        ensures shape { IsShape result.now }
    {
        self.points.as_slice()
    }

    /// The greatest x and the greatest y: how far the shape reaches to the right and upwards, at most 2000.
    pub fn extent(&self) -> (i32, i32)
        ensures x { result.0 ≡ pos (reach_x self.now) }
        ensures y { result.1 ≡ pos (reach_y self.now) }
        ensures some { (1 ≤ reach_x self.now) × (1 ≤ reach_y self.now) }
        ensures few { (reach_x self.now ≤ 2000) × (reach_y self.now ≤ 2000) }
    {
        let corner = upper_corner(self.points());
        (corner.x, corner.y)
    }
}

impl Default for Shape {
    fn default() -> Shape {
        let mut points = ArrayVec::new();
        points.push(Point { x: 0, y: 0 });
        points.push(Point { x: 1, y: 0 });
        points.push(Point { x: 0, y: 1 });
        Shape { points }
    }
}
