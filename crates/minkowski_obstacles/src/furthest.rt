//! The vertex of a footprint that lies furthest inside an edge of another.
ghost use Rattle.std.specs.Prelude.{◌≡◌, ◌≤◌, ◌≤ℤ◌, ◌⊎◌, All, Contains, length};
ghost use Rattle.shape_exact.specs.Shapes.{cross};
ghost use Rattle.shape_exact.specs.Separation.{IsWithin};

use crate::edge::Edge;
use shape_exact::Point;

/// The first vertex that lies furthest inside the edge.
pub(crate) fn furthest(e: Edge, vertices: &[Point]) -> Point
    requires from { IsWithin 2000 e.from }
    requires to { IsWithin 2000 e.to }
    requires some { 1 ≤ length vertices.now }
    requires vertices { All (IsWithin 2000) vertices.now }
    ensures member { Contains vertices.now result }
    ensures furthest { All (λ v. cross e.from e.to v ≤ℤ cross e.from e.to result) vertices.now }
    ensures within { IsWithin 2000 result }
{
    let mut best = vertices[0];
    let mut height = e.height(best);
    for v in vertices {
        let other = e.height(*v);
        if height < other {
            best = *v;
            height = other;
        }
    }
    best
}
