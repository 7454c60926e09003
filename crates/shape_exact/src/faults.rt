//! What is wrong with a list of points: vertices out of range, equal vertices, cross products of both signs or none.
ghost use Rattle.std.specs.Prelude.{◌≡◌, ◌≤◌, ◌<◌, length};
ghost use Rattle.std.specs.List.{All};
ghost use Rattle.shape_exact.specs.Shapes.{cross};
ghost use Rattle.shape_exact.specs.Separation.{IsWithin};
ghost use Rattle.shape_exact.specs.Reading.{is_near, first_far, is_same, first_equal_to, first_equal, cross_at, sign, sign_of_edge, inner_sign, is_other, other_of_edge, first_other};

use crate::Point;
use crate::separation::{cross_product, end_of};

/// Whether both coordinates are from -1000 to 1000.
fn is_near(p: Point) -> bool
    ensures { result ≡ is_near p }
{
    p.x.unsigned_abs() <= 1000 && p.y.unsigned_abs() <= 1000
}

/// The first vertex out of range.
pub(crate) fn first_far(points: &[Point]) -> Option<u8>
    requires { length points.now ≤ 16 }
    ensures { result ≡ first_far points.now }
{
    for i in 0..points.len() {
        if !is_near(points[i]) {
            return Some(i as u8);
        }
    }
    None
}

/// Whether the points are one.
fn is_same(p: Point, q: Point) -> bool
    ensures { result ≡ is_same p q }
{
    p.x == q.x && p.y == q.y
}

/// The first vertex after number `i` that is equal to it.
fn first_equal_to(points: &[Point], i: usize) -> Option<u8>
    requires few { length points.now ≤ 16 }
    requires within { i < length points.now }
    ensures { result ≡ first_equal_to points.now i }
{
    for j in i + 1..points.len() {
        if is_same(points[i], points[j]) {
            return Some(j as u8);
        }
    }
    None
}

/// The first equal pair i < j, by i and then by j.
pub(crate) fn first_equal(points: &[Point]) -> Option<(u8, u8)>
    requires { length points.now ≤ 16 }
    ensures { result ≡ first_equal points.now }
{
    for i in 0..points.len() {
        if let Some(j) = first_equal_to(points, i) {
            return Some((i as u8, j));
        }
    }
    None
}

/// The cross product of an edge and a vertex.
fn cross(from: Point, to: Point, vertex: Point) -> i32
    requires from { IsWithin 2000 from }
    requires to { IsWithin 2000 to }
    requires vertex { IsWithin 2000 vertex }
    ensures { result ≡ cross from to vertex }
{
    cross_product(
        to.x - from.x,
        to.y - from.y,
        vertex.x - from.x,
        vertex.y - from.y,
    )
}

/// The cross product of an edge and a vertex, by their numbers.
fn cross_at(points: &[Point], e: usize, v: usize) -> i32
    requires near { All (IsWithin 1000) points.now }
    requires edge { e < length points.now }
    requires vertex { v < length points.now }
    ensures { result ≡ cross_at points.now e v }
{
    cross(points[e], end_of(points, e), points[v])
}

/// Whether a number that is not 0 is above 0.
fn sign(n: i32) -> Option<bool>
    ensures { result ≡ sign n }
{
    if n > 0 {
        Some(true)
    } else if n < 0 {
        Some(false)
    } else {
        None
    }
}

/// The sign of the first cross product of an edge that is not 0.
fn sign_of_edge(points: &[Point], e: usize) -> Option<bool>
    requires near { All (IsWithin 1000) points.now }
    requires edge { e < length points.now }
    ensures { result ≡ sign_of_edge points.now e }
{
    for v in 0..points.len() {
        if let Some(left) = sign(cross_at(points, e, v)) {
            return Some(left);
        }
    }
    None
}

/// The sign of the first cross product that is not 0, by edge and then by vertex.
pub(crate) fn inner_sign(points: &[Point]) -> Option<bool>
    requires { All (IsWithin 1000) points.now }
    ensures { result ≡ inner_sign points.now }
{
    for e in 0..points.len() {
        if let Some(left) = sign_of_edge(points, e) {
            return Some(left);
        }
    }
    None
}

/// Whether the number has the other sign than the one that is told.
fn is_other(left: bool, n: i32) -> bool
    ensures { result ≡ is_other left n }
{
    if left { n < 0 } else { n > 0 }
}

/// The first vertex whose cross product with the edge has the other sign.
fn other_of_edge(points: &[Point], left: bool, e: usize) -> Option<u8>
    requires few { length points.now ≤ 16 }
    requires near { All (IsWithin 1000) points.now }
    requires edge { e < length points.now }
    ensures { result ≡ other_of_edge left points.now e }
{
    for v in 0..points.len() {
        if is_other(left, cross_at(points, e, v)) {
            return Some(v as u8);
        }
    }
    None
}

/// The first edge and vertex whose cross product has the other sign.
pub(crate) fn first_other(points: &[Point], left: bool) -> Option<(u8, u8)>
    requires few { length points.now ≤ 16 }
    requires near { All (IsWithin 1000) points.now }
    ensures { result ≡ first_other left points.now }
{
    for e in 0..points.len() {
        if let Some(v) = other_of_edge(points, left, e) {
            return Some((e as u8, v));
        }
    }
    None
}
