//! Reading footprints.
ghost use Rattle.std.specs.Prelude.{◌≡◌, ◌≤◌, ◌-ℤ◌, length, map};
ghost use Rattle.std.specs.List.{All};
ghost use Rattle.shape_exact.specs.Shapes.{shifted};
ghost use Rattle.shape_exact.specs.Separation.{IsWithin};
ghost use Rattle.shape_exact.specs.Reading.{backwards, leftwards, shape_of};

use crate::corner::lower_corner;
use crate::faults::{first_equal, first_far, first_other, inner_sign};
use crate::{Point, Shape, ShapeFault};
use arrayvec::ArrayVec;

/// The same line walked the other way round, from the same first vertex.
fn backwards(points: &[Point]) -> ArrayVec<Point, 16>
    requires some { 1 ≤ length points.now }
    requires few { length points.now ≤ 16 }
    ensures { result.items ≡ backwards points.now }
{
    let mut line = ArrayVec::new();
    line.push(points[0]);
    for i in 1..points.len() {
        line.push(points[points.len() - i]);
    }
    line
}

/// The way from `corner` to `p`.
fn way(corner: Point, p: Point) -> Point
    requires p { IsWithin 1000 p }
    requires corner { IsWithin 1000 corner }
    ensures { result ≡ record { x = p.x -ℤ corner.x; y = p.y -ℤ corner.y } }
{
    Point {
        x: p.x - corner.x,
        y: p.y - corner.y,
    }
}

/// The line moved so far to the left and down as the corner lies to the right and up.
fn moved_back(points: &[Point], corner: Point) -> ArrayVec<Point, 16>
    requires few { length points.now ≤ 16 }
    requires points { All (IsWithin 1000) points.now }
    requires corner { IsWithin 1000 corner }
    ensures { result.items ≡ map (λ p. record { x = p.x -ℤ corner.x; y = p.y -ℤ corner.y }) points.now }
{
    let mut line = ArrayVec::new();
    for p in points {
        line.push(way(corner, *p));
    }
    line
}

/// The line shifted to least x and least y 0.
fn shifted(points: &[Point]) -> ArrayVec<Point, 16>
    requires some { 1 ≤ length points.now }
    requires few { length points.now ≤ 16 }
    requires near { All (IsWithin 1000) points.now }
    ensures { result.items ≡ shifted points.now }
{
    moved_back(points, lower_corner(points))
}

/// The line walked counterclockwise, shifted to least x and least y 0; `left` tells whether it is so walked already.
fn leftwards(points: &[Point], left: bool) -> ArrayVec<Point, 16>
    requires some { 1 ≤ length points.now }
    requires few { length points.now ≤ 16 }
    requires near { All (IsWithin 1000) points.now }
    ensures { result.items ≡ shifted (leftwards (Some left) points.now) }
{
    if left {
        shifted(points)
    } else {
        shifted(backwards(points).as_slice())
    }
}

impl Shape {
    /// The footprint that the points give, in either direction of travel: counterclockwise from the same first vertex,
    /// with least x and least y 0. Otherwise the first fault, in the order of `ShapeFault`.
    pub fn read(points: &[Point]) -> Result<Shape, ShapeFault>
        ensures { result ≡ shape_of points.now }
    {
        if points.len() < 3 {
            return Err(ShapeFault::TooFew);
        }
        if points.len() > 16 {
            return Err(ShapeFault::TooMany);
        }
        if let Some(i) = first_far(points) {
            return Err(ShapeFault::Range(i));
        }
        if let Some((i, j)) = first_equal(points) {
            return Err(ShapeFault::Equal(i, j));
        }
        let Some(left) = inner_sign(points) else {
            return Err(ShapeFault::Flat);
        };
        if let Some((e, v)) = first_other(points, left) {
            return Err(ShapeFault::NotConvex(e, v));
        }
        let points = leftwards(points, left);
        Ok(Shape { points })
    }
}
