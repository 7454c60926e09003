//! The corners of the least upright rectangle round some points.
ghost use Rattle.std.specs.Prelude.{◌≡◌, ◌≤◌, length};
ghost use Rattle.shape_exact.specs.Shapes.{least, greatest};

use crate::Point;

/// The least x and the least y of the points.
pub(crate) fn lower_corner(points: &[Point]) -> Point
    requires { 1 ≤ length points.now }
    ensures x { result.x ≡ least (λ p. p.x) points.now }
    ensures y { result.y ≡ least (λ p. p.y) points.now }
{
    let mut corner = points[0];
    for p in points {
        corner = Point {
            x: corner.x.min(p.x),
            y: corner.y.min(p.y),
        };
    }
    corner
}

/// The greatest x and the greatest y of the points.
pub(crate) fn upper_corner(points: &[Point]) -> Point
    requires { 1 ≤ length points.now }
    ensures x { result.x ≡ greatest (λ p. p.x) points.now }
    ensures y { result.y ≡ greatest (λ p. p.y) points.now }
{
    let mut corner = points[0];
    for p in points {
        corner = Point {
            x: corner.x.max(p.x),
            y: corner.y.max(p.y),
        };
    }
    corner
}
