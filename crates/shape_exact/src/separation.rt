//! Whether two shapes at their places are apart.
//!
//! The separating edge: two convex shapes have no inner point in common exactly where some edge of one of them has no
//! vertex of the other strictly on its inner side (the separating axis theorem for convex polygons).
ghost use Rattle.std.specs.Prelude.{◌≡◌, ◌≤◌, ◌<◌, ◌↔◌, ℤ, pos, ◌+ℤ◌, ◌-ℤ◌, ◌*ℤ◌, ◌≤ℤ◌, ◌<ℤ◌, true, false, IsTrue, length, slice_index_or, unsigned_abs};
ghost use Rattle.std.specs.List.{All, Any};
ghost use Rattle.shape_exact.specs.declared.point.Point.{Point};
ghost use Rattle.shape_exact.specs.Shapes.{Spot, AreApart, cross, edges, is_inside};
ghost use Rattle.shape_exact.specs.Separation.{IsWithin, EachEdgeSees, HasSeparatingEdge, moved, way};

use crate::{Point, Shape};

/// The cross product of two vectors.
pub(crate) fn cross_product(ax: i32, ay: i32, bx: i32, by: i32) -> i32
    requires ax { unsigned_abs ax ≤ 24000 }
    requires ay { unsigned_abs ay ≤ 24000 }
    requires bx { unsigned_abs bx ≤ 24000 }
    requires by { unsigned_abs by ≤ 24000 }
    ensures { result ≡ ax *ℤ by -ℤ ay *ℤ bx }
{
    ax * by - ay * bx
}

/// Above 0 where the vertex, moved so far, is strictly on the inner side of the edge, and 0 on its line.
fn side(from: Point, to: Point, vertex: Point, by: Point) -> i32
    requires from { IsWithin 2000 from }
    requires to { IsWithin 2000 to }
    requires vertex { IsWithin 2000 vertex }
    requires by { IsWithin 20000 by }
    ensures { result ≡ cross from to (moved by vertex) }
{
    cross_product(
        to.x - from.x,
        to.y - from.y,
        vertex.x + by.x - from.x,
        vertex.y + by.y - from.y,
    )
}

/// Whether some vertex, moved so far, is strictly on the inner side of the edge.
fn sees(from: Point, to: Point, vertices: &[Point], by: Point) -> bool
    requires from { IsWithin 2000 from }
    requires to { IsWithin 2000 to }
    requires vertices { All (IsWithin 2000) vertices.now }
    requires by { IsWithin 20000 by }
    ensures seen { result ≡ true → Any (λ v. pos 0 <ℤ cross from to (moved by v)) vertices.now }
    ensures unseen { result ≡ false → All (λ v. cross from to (moved by v) ≤ℤ pos 0) vertices.now }
{
    for v in vertices {
        if side(from, to, *v, by) > 0 {
            return true;
        }
    }
    false
}

/// The vertex where edge `i` ends: the next one, and after the last the first.
pub(crate) fn end_of(vertices: &[Point], i: usize) -> Point
    requires i { i < length vertices.now }
    requires vertices { All (IsWithin 2000) vertices.now }
    ensures edge { (d : Point × Point)
        → slice_index_or (edges vertices.now) i d ≡ (slice_index_or vertices.now i d.0, result) }
    ensures within { IsWithin 2000 result }
{
    if i + 1 < vertices.len() {
        vertices[i + 1]
    } else {
        vertices[0]
    }
}

/// Whether some edge of `a` has no vertex of `b`, moved so far, strictly on its inner side.
fn has_separating_edge(a: &[Point], b: &[Point], by: Point) -> bool
    requires a { All (IsWithin 2000) a.now }
    requires b { All (IsWithin 2000) b.now }
    requires by { IsWithin 20000 by }
    ensures some { result ≡ true → HasSeparatingEdge a.now b.now by }
    ensures none { result ≡ false → EachEdgeSees a.now b.now by }
{
    for i in 0..a.len() {
        if !sees(a[i], end_of(a, i), b, by) {
            return true;
        }
    }
    false
}

/// The shift that takes one place to another.
fn shift_from(from: Point, to: Point) -> Point
    requires from { IsWithin 10000 from }
    requires to { IsWithin 10000 to }
    ensures value { result ≡ way from to }
    ensures within { IsWithin 20000 result }
{
    Point {
        x: to.x - from.x,
        y: to.y - from.y,
    }
}

/// Whether an edge of the first shape at its place has no vertex of the second one at its place strictly on its inner
/// side. Such an edge separates: no point is strictly inside both shapes.
pub fn separates(a: &Shape, at_a: Point, b: &Shape, at_b: Point) -> bool
    requires at_a { IsWithin 10000 at_a }
    requires at_b { IsWithin 10000 at_b }
    ensures edge { result ≡ true → HasSeparatingEdge a.now b.now (way at_a at_b) }
    ensures none { result ≡ false → EachEdgeSees a.now b.now (way at_a at_b) }
    ensures apart { result ≡ true → AreApart a.now at_a b.now at_b }
{
    has_separating_edge(a.points(), b.points(), shift_from(at_a, at_b))
}

/// Whether no point (x / n, y / n) is strictly inside both shapes at their places; shapes that only touch are apart.
/// Places have coordinates from -10,000 to 10,000. Costs at most twice the product of the numbers of vertices, and ends
/// at the first edge that separates.
pub fn apart(a: &Shape, at_a: Point, b: &Shape, at_b: Point) -> bool
    requires at_a { IsWithin 10000 at_a }
    requires at_b { IsWithin 10000 at_b }
    ensures apart { IsTrue result ↔ AreApart a.now at_a b.now at_b }
    ensures common { result ≡ false
        → (s : Spot) × (0 < s.n) × IsTrue (is_inside a.now at_a s) × IsTrue (is_inside b.now at_b s) }
{
    let first = a.points();
    let second = b.points();
    let there = shift_from(at_a, at_b);
    let back = shift_from(at_b, at_a);
    has_separating_edge(first, second, there) || has_separating_edge(second, first, back)
}
