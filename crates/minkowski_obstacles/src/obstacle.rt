//! Obstacles.
ghost use Rattle.std.specs.Prelude.{◌≡◌, ℤ, pos, ◌+ℤ◌, ◌-ℤ◌, ◌*ℤ◌, ◌<ℤ◌, ◌≤ℤ◌, ◌≤◌, ◌↔◌, true, false, All, Any, IfNone, IfSome, negsuc, unsigned_abs};
ghost use Rattle.shape_exact.specs.Separation.{IsWithin};
ghost use Rattle.minkowski_obstacles.specs.Pairs.{AreApartAt, Overlap, IsEmptyRow, IsRow, offset};
ghost use Rattle.minkowski_obstacles.specs.Intervals.{Holds};
ghost use Rattle.minkowski_obstacles.specs.Sums.{IsSmall, value};

use crate::interval::Interval;
use crate::side::Side;
use crate::sides::sides_of;
use arrayvec::ArrayVec;
use shape_exact::{Point, Shape};
use std::marker::Model;

/// The offsets of a moving footprint at which it has a point strictly inside in common with a fixed one at (0, 0).
/// Contracts see it as the two footprints. It keeps the sides of their sum, strictly ascending by direction.
#[derive(Clone, Drop)]
pub struct Obstacle {
    fixed: Shape,
    moving: Shape,
    sides: ArrayVec<Side, 32>,
}

impl Model for Obstacle {
    ghost use Rattle.minkowski_obstacles.specs.Pairs.{Pair};
    ghost use Rattle.minkowski_obstacles.specs.Obstacles.{IsObstacle};

    ghost Value = { Pair };

    ghost view = { λ o. record { fixed = o.fixed; moving = o.moving } };

    ghost invariant = { λ o. IsObstacle o.fixed o.moving o.sides.items };
}

/// Whether the offset is strictly on the inner side of each of the sides.
fn is_within(sides: &[Side], w: Point) -> bool
    requires small { All IsSmall sides.now }
    requires w { IsWithin 10000 w }
    ensures inside { result ≡ true → All (λ s. pos 0 <ℤ value s w) sides.now }
    ensures outside { result ≡ false → Any (λ s. value s w ≤ℤ pos 0) sides.now }
{
    for s in sides {
        if s.value(w) <= 0 {
            return false;
        }
    }
    true
}

/// The product of a direction's coordinate and a distance.
fn scaled(a: i32, b: i64) -> i64
    requires a { unsigned_abs a ≤ 4000 }
    requires b { unsigned_abs b ≤ 2_200_000_000 }
    ensures value { result ≡ a *ℤ b }
    ensures limit { unsigned_abs result ≤ 8_800_000_000_000 }
{
    i64::from(a) * b
}

/// The number that the side's slope times x is below exactly where the offset (x, y) is strictly on its inner side.
fn bound(s: &Side, y: i32) -> i64
    requires { IsSmall s.now }
    ensures value { result ≡ s.now.along.x *ℤ (y -ℤ s.now.at.y) +ℤ s.now.along.y *ℤ s.now.at.x }
    ensures limit { unsigned_abs result ≤ 20_000_000_000_000 }
{
    scaled(s.along.x, i64::from(y) - i64::from(s.at.y)) + scaled(s.along.y, i64::from(s.at.x))
}

/// The x from -2000 to 2000 for which the offset (x, y) is strictly on the inner side of each of the sides.
fn row_within(sides: &[Side], y: i32) -> Interval
    requires { All IsSmall sides.now }
    ensures { (x : ℤ) → Holds result x
        ↔ (((negsuc 1999 ≤ℤ x) × (x ≤ℤ pos 2000)) × All (λ s. pos 0 <ℤ value s (offset x y)) sides.now) }
{
    let mut row = Interval {
        low: -2000,
        high: 2000,
    };
    for s in sides {
        row = row.cut(i64::from(s.along.y), bound(s, y));
    }
    row
}

impl Obstacle {
    /// The obstacle of a fixed footprint for a moving one. Costs in the order of the product of the numbers of
    /// vertices: two passes of that size, two sorts of at most 16 sides, and a pass that merges them.
    pub fn of(fixed: &Shape, moving: &Shape) -> Obstacle
        ensures { result ≡ record { fixed = fixed.now; moving = moving.now } }
    {
        let sides = sides_of(fixed.points(), moving.points());
        Obstacle {
            fixed: fixed.turned(0),
            moving: moving.turned(0),
            sides,
        }
    }

    /// Whether the footprints have a point strictly inside in common, the fixed one at (0, 0) and the moving one at the
    /// offset. Coordinates are from -10,000 to 10,000. Costs at most the number of sides.
    pub fn strictly_inside(&self, offset: Point) -> bool
        requires { IsWithin 10000 offset }
        ensures inside { result ≡ true → Overlap self.now offset }
        ensures outside { result ≡ false → AreApartAt self.now offset }
    {
        is_within(self.sides.as_slice(), offset)
    }

    /// The least and the greatest x for which (x, y) is an offset strictly inside; None where there is none. Takes one
    /// whole division for each side.
    pub fn row(&self, y: i32) -> Option<(i32, i32)>
        ensures none { IfNone result (IsEmptyRow self.now y) }
        ensures some { IfSome result (λ r. IsRow self.now y r.0 r.1) }
        ensures few { IfSome result (λ r. (negsuc 1999 ≤ℤ r.0) × (r.1 ≤ℤ pos 2000)) }
    {
        let row = row_within(self.sides.as_slice(), y);
        if row.low <= row.high {
            Some((row.low as i32, row.high as i32))
        } else {
            None
        }
    }
}
