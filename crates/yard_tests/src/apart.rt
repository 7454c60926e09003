//! `apart`, judged against points; turns and cells, against rows worked by hand.
use shape_exact::{Point, Shape, apart};
use std::process::Abort;

type Corner = (i8, i8);

/// Convex lines, counterclockwise, within 0 to 4: a square, the same with a vertex within each side, half and quarter
/// squares, a diamond, a hexagon, strips, and slanted ones.
const SHAPES: [&[Corner]; 12] = [
    &[(0, 0), (2, 0), (2, 2), (0, 2)],
    &[
        (0, 0),
        (1, 0),
        (2, 0),
        (2, 1),
        (2, 2),
        (1, 2),
        (0, 2),
        (0, 1),
    ],
    &[(0, 0), (4, 0), (0, 4)],
    &[(4, 4), (0, 4), (4, 0)],
    &[(0, 0), (1, 0), (0, 1)],
    &[(2, 0), (4, 2), (2, 4), (0, 2)],
    &[(1, 0), (3, 0), (4, 1), (4, 3), (3, 4), (0, 1)],
    &[(0, 0), (4, 0), (4, 1), (0, 1)],
    &[(0, 0), (1, 0), (1, 4), (0, 4)],
    &[(0, 0), (1, 0), (3, 4), (2, 4)],
    &[(0, 0), (2, 0), (4, 4)],
    &[(0, 0), (3, 3), (3, 4), (0, 1)],
];

/// Places of the second shape: on the first one, touching it at a side or a vertex, across it, and away from it.
const PLACES: [Corner; 7] = [(0, 0), (2, 0), (1, 1), (-1, 2), (0, -2), (3, -1), (-3, -4)];

/// How far the number of eighteenths is beyond the coordinate. No number here wraps: `wrapping_sub` and its kin spare
/// the tests a proof of that.
fn beyond(eighteenths: i32, coordinate: i8, by: i8) -> i32 {
    let units = i32::from(coordinate) + i32::from(by);
    eighteenths.wrapping_sub(units.wrapping_mul(18))
}

/// Whether the point (x / 18, y / 18) is strictly on the inner side of the edge, moved so far.
fn is_beside(from: Corner, to: Corner, by: Corner, x: i32, y: i32) -> bool {
    let across = i32::from(to.0) - i32::from(from.0);
    let along = i32::from(to.1) - i32::from(from.1);
    let right = beyond(x, from.0, by.0);
    let up = beyond(y, from.1, by.1);
    along.wrapping_mul(right) < across.wrapping_mul(up)
}

/// Whether the point is strictly inside the line of corners, moved so far.
fn holds(corners: &[Corner], by: Corner, x: i32, y: i32) -> bool {
    let Some(last) = corners.last() else {
        return false;
    };
    let mut from = *last;
    for to in corners {
        if !is_beside(from, *to, by, x, y) {
            return false;
        }
        from = *to;
    }
    true
}

/// Whether some point of the fine grid from 0 to 4 is strictly inside both lines, the second one moved so far.
///
/// This decides whether any point is. Each side of `SHAPES` goes along, up, or in the direction (1, 1), (1, -1) or
/// (1, 2). The cross product of two of these is at most 3, so two sides meet in sixths at most, and so do the vertices of the
/// common part. Where it has an inner point, the middle of some three of its vertices is one, and lies in eighteenths.
fn share_a_point(a: &[Corner], b: &[Corner], by: Corner) -> bool {
    for y in 0..73 {
        for x in 0..73 {
            if holds(a, (0, 0), x, y) && holds(b, by, x, y) {
                return true;
            }
        }
    }
    false
}

/// The shape with these corners.
fn shape_of<R: Abort>(rt: &R, corners: &[Corner]) -> Shape {
    let mut points = [Point::default(); 8];
    for (i, corner) in corners.iter().enumerate() {
        assert!(rt; i < 8);
        points[i] = Point {
            x: i32::from(corner.0),
            y: i32::from(corner.1),
        };
    }
    assert!(rt; corners.len() <= 8);
    Shape::read(&points[..corners.len()]).expect(rt, "a shape")
}

#[test]
fn apart_agrees_with_points(rt: HostRuntime) {
    let origin = Point { x: 0, y: 0 };
    for first in SHAPES {
        for second in SHAPES {
            for place in PLACES {
                let (a, b) = (shape_of(&rt, first), shape_of(&rt, second));
                let at = Point {
                    x: i32::from(place.0),
                    y: i32::from(place.1),
                };
                let shared = share_a_point(first, second, place);
                assert_eq!(rt;
                    apart(&a, origin, &b, at),
                    !shared,
                    "{first:?} and {second:?} at {place:?}"
                );
            }
        }
    }
}

/// The number of cells, the points after two turns, and whether the shape and it are apart at one place, by hand.
#[test]
fn turns_and_cells_by_hand(rt: HostRuntime) {
    let place = Point { x: 7, y: -3 };
    let rows: [(&[Corner], u32, &[Corner], bool); 4] = [
        (
            &[(0, 0), (4, 0), (0, 4)],
            6,
            &[(4, 4), (0, 4), (4, 0)],
            true,
        ),
        (
            &[(0, 0), (1, 0), (0, 3)],
            1,
            &[(1, 3), (0, 3), (1, 0)],
            true,
        ),
        (
            &[(2, 0), (4, 2), (2, 4), (0, 2)],
            4,
            &[(2, 4), (0, 2), (2, 0), (4, 2)],
            false,
        ),
        (
            &[(0, 0), (0, 2), (1, 2), (2, 2), (2, 0)],
            4,
            &[(2, 2), (0, 2), (0, 0), (1, 0), (2, 0)],
            false,
        ),
    ];
    for (corners, cells, turned, is_apart) in rows {
        let shape = shape_of(&rt, corners);
        let other = shape.turned(2);
        assert_eq!(rt; shape.cells(), cells, "{corners:?}");
        assert_eq!(rt;
            other.points(),
            shape_of(&rt, turned).points(),
            "{corners:?}"
        );
        assert_eq!(rt;
            apart(&shape, place, &other, place),
            is_apart,
            "{corners:?}"
        );
    }
}
