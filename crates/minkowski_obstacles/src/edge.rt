//! Edges of a footprint.
ghost use Rattle.std.specs.Prelude.{◌≡◌, ◌<◌, ◌≤◌, ◌-ℤ◌, ◌*ℤ◌, All, length, slice_index_or, unsigned_abs};
ghost use Rattle.shape_exact.specs.Shapes.{cross};
ghost use Rattle.shape_exact.specs.Separation.{IsWithin};
ghost use Rattle.shape_exact.specs.Plane.{rim, Edge as Line};
ghost use Rattle.minkowski_obstacles.specs.Sums.{line};

use shape_exact::Point;

/// From one vertex to the next.
#[derive(Clone, Copy)]
pub(crate) struct Edge {
    pub(crate) from: Point,
    pub(crate) to: Point,
}

/// The cross product of two directions.
pub(crate) fn product(ax: i32, ay: i32, bx: i32, by: i32) -> i32
    requires ax { unsigned_abs ax ≤ 24000 }
    requires ay { unsigned_abs ay ≤ 24000 }
    requires bx { unsigned_abs bx ≤ 24000 }
    requires by { unsigned_abs by ≤ 24000 }
    ensures { result ≡ ax *ℤ by -ℤ ay *ℤ bx }
{
    ax * by - ay * bx
}

impl Edge {
    /// The edge of the closed line from vertex `i` to the next.
    pub(crate) fn of(points: &[Point], i: usize) -> Edge
        requires i { i < length points.now }
        requires points { All (IsWithin 2000) points.now }
        ensures is { (d : Line) → slice_index_or (rim points.now) i d ≡ line result }
        ensures from { IsWithin 2000 result.from }
        ensures to { IsWithin 2000 result.to }
    {
        let to = if i + 1 < points.len() {
            points[i + 1]
        } else {
            points[0]
        };
        Edge {
            from: points[i],
            to,
        }
    }

    /// Above 0 where the vertex lies strictly on the inner side of the edge, and 0 on its line.
    pub(crate) fn height(self, v: Point) -> i32
        requires from { IsWithin 2000 self.from }
        requires to { IsWithin 2000 self.to }
        requires v { IsWithin 2000 v }
        ensures { result ≡ cross self.from self.to v }
    {
        let from = self.from;
        product(
            self.to.x - from.x,
            self.to.y - from.y,
            v.x - from.x,
            v.y - from.y,
        )
    }
}
