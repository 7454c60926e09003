//! Quarter turns of footprints.
ghost use Rattle.std.specs.Prelude.{◌≡◌, ◌≤◌, pos, ◌-ℤ◌, ◌≤ℤ◌, map, length};
ghost use Rattle.std.specs.List.{All};
ghost use Rattle.shape_exact.specs.Shapes.{turned};

use crate::{Point, Shape};
use arrayvec::ArrayVec;

/// The points after a quarter turn counterclockwise, which takes (x, y) to (-y, x), and a shift to the right by
/// `height`.
fn turn_once(points: &[Point], height: i32) -> ArrayVec<Point, 16>
    requires few { length points.now ≤ 16 }
    requires height { (pos 0 ≤ℤ height) }
    requires points { All (λ v. pos 0 ≤ℤ v.y) points.now }
    ensures { result.items ≡ map (λ v. record { x = height -ℤ v.y; y = v.x }) points.now }
{
    let mut turned = ArrayVec::new();
    for p in points {
        turned.push(Point {
            x: height - p.y,
            y: p.x,
        });
    }
    turned
}

impl Shape {
    /// The same shape.
    fn copied(&self) -> Shape
        ensures { result ≡ self.now }
    {
        let mut points = ArrayVec::new();
        for p in self.points() {
            points.push(*p);
        }
        Shape { points }
    }

    /// The shape after a quarter turn counterclockwise, with least x and least y 0.
    fn quarter(&self) -> Shape
        ensures { result ≡ turned 1 self.now }
    {
        let (_, height) = self.extent();
        let points = turn_once(self.points(), height);
        Shape { points }
    }

    /// The shape after `turn` quarter turns counterclockwise, with least x and least y 0.
    pub fn turned(&self, turn: u8) -> Shape
        requires { turn ≤ 3 }
        ensures { result ≡ turned turn self.now }
    {
        let mut shape = self.copied();
        for i in 0..turn {
            shape = shape.quarter();
        }
        shape
    }
}
