//! The examples worked by hand, and small pairs against the test of single offsets.
ghost use Rattle.std.specs.Prelude.{◌≡◌, ℕ, ◌≤◌, ◌<◌, pos, ◌≤ℤ◌, negsuc, length};

use crate::Obstacle;
use crate::sides::sides_of;
use shape_exact::{Point, Shape, apart};

/// The shape of the points, which are given as pairs of coordinates.
fn shape_of(points: &[(i32, i32)]) -> Shape
    requires { length points.now ≤ 16 }
{
    let mut vertices = [Point { x: 0, y: 0 }; 16];
    for (i, p) in points.iter().enumerate() {
        vertices[i] = Point { x: p.0, y: p.1 };
    }
    match Shape::read(&vertices[..points.len()]) {
        Ok(shape) => shape,
        Err(_) => Shape::default(),
    }
}

fn half_triangle() -> Shape {
    shape_of(&[(0, 0), (1, 0), (0, 3)])
}

#[test]
fn rows_of_a_triangle_and_its_half_turn(rt: HostRuntime) {
    let triangle = half_triangle();
    let obstacle = Obstacle::of(&triangle, &triangle.turned(2));
    assert_eq!(rt; obstacle.row(-1), Some((0, 0)));
    assert_eq!(rt; obstacle.row(2), None);
    assert_eq!(rt; obstacle.row(0), None);
    assert_eq!(rt; obstacle.row(2_147_483_647), None);
    assert_eq!(rt; obstacle.row(-2_147_483_648), None);
}

/// The corners of the sum are (-1, -3), (1, -3) and (-1, 3): points on its border are not inside, points near them are.
#[test]
fn border_of_a_triangle_and_its_half_turn(rt: HostRuntime) {
    let triangle = half_triangle();
    let obstacle = Obstacle::of(&triangle, &triangle.turned(2));
    for (x, y, inside) in [
        (-1, -3, false),
        (1, -3, false),
        (-1, 3, false),
        (0, 0, false),
        (0, -1, true),
        (0, -2, true),
        (0, -3, false),
    ] {
        assert_eq!(rt;
            obstacle.strictly_inside(Point { x, y }),
            inside,
            "at {x} {y}"
        );
    }
}

fn side_count(fixed: &Shape, moving: &Shape) -> usize {
    sides_of(fixed.points(), moving.points()).len()
}

/// Edges of one direction are one side: of both shapes, and of one shape that has a vertex within a side.
#[test]
fn sides_of_one_direction_are_one(rt: HostRuntime) {
    let triangle = half_triangle();
    let square = shape_of(&[(0, 0), (2, 0), (2, 2), (0, 2)]);
    let parted = shape_of(&[(0, 0), (1, 0), (3, 0), (3, 1), (0, 1)]);
    assert_eq!(rt; side_count(&square, &square), 4);
    assert_eq!(rt; side_count(&parted, &square), 4);
    assert_eq!(rt; side_count(&square, &parted), 4);
    assert_eq!(rt; side_count(&triangle, &triangle.turned(2)), 3);
    assert_eq!(rt; side_count(&triangle, &triangle), 6);
    assert_eq!(rt; side_count(&square, &triangle), 5);
}

/// The first and the last x from -20 to 20 at which the shapes are not apart, by the test of each; None where the
/// obstacle's test of one of them differs.
fn scanned(a: &Shape, b: &Shape, obstacle: &Obstacle, y: i32) -> Option<Option<(i32, i32)>>
    requires { (negsuc 19 ≤ℤ y) × (y ≤ℤ pos 20) }
{
    let mut found = None;
    for i in 0..41_u8 {
        let offset = Point {
            x: i32::from(i) - 20,
            y,
        };
        let inside = !apart(a, Point { x: 0, y: 0 }, b, offset);
        if inside != obstacle.strictly_inside(offset) {
            return None;
        }
        if inside {
            let first = match found {
                Some((first, _)) => first,
                None => offset.x,
            };
            found = Some((first, offset.x));
        }
    }
    Some(found)
}

/// How many rows from -20 to 20 differ from what the test of each offset gives.
fn wrong_rows(a: &Shape, b: &Shape) -> u32 {
    let obstacle = Obstacle::of(a, b);
    let mut wrong = 0_u32;
    for i in 0..41_u8 {
        let y = i32::from(i) - 20;
        if scanned(a, b, &obstacle, y) != Some(obstacle.row(y)) {
            wrong = wrong.saturating_add(1);
        }
    }
    wrong
}

/// Each of these shapes against each of them in four turns: 144 pairs, 41 rows of 41 offsets each.
#[test]
fn small_pairs_agree_with_single_offsets(rt: HostRuntime) {
    let shapes = [
        half_triangle(),
        shape_of(&[(0, 0), (2, 0), (2, 2), (0, 2)]),
        shape_of(&[(0, 0), (1, 0), (3, 0), (3, 1), (0, 1)]),
        shape_of(&[(0, 0), (4, 1), (5, 3), (2, 5)]),
        shape_of(&[(1, 0), (3, 0), (4, 2), (3, 4), (1, 4), (0, 2)]),
        shape_of(&[(0, 1), (6, 0), (7, 1), (1, 2)]),
    ];
    for (i, a) in shapes.iter().enumerate() {
        for (j, b) in shapes.iter().enumerate() {
            for turn in 0..4_u8 {
                assert_eq!(rt;
                    wrong_rows(a, &b.turned(turn)),
                    0,
                    "shapes {i} and {j} turn {turn}"
                );
            }
        }
    }
}
