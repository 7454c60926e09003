//! The example worked by hand, and small plates against the plain program that tests each position.
ghost use Rattle.std.specs.Prelude.{◌≡◌, ℕ, ◌≤◌, ◌<◌, pos, ◌≤ℤ◌, All, length};
ghost use Rattle.shape_exact.specs.Separation.{IsWithin};
ghost use Rattle.lattice_free.specs.Clear.{IsAt};

use lattice_free::FreeRows;
use minkowski_obstacles::Obstacle;
use shape_exact::{DayList, Name, NoMemory, Plate, Point, Shape, apart};
use std::alloc::Global;

/// A plate of so many units and this pitch.
fn ground(width: u16, height: u16, pitch: u16) -> Plate
    ensures width { result.width ≡ width }
    ensures height { result.height ≡ height }
    ensures pitch { result.pitch ≡ pitch }
{
    Plate {
        name: Name::default(),
        width,
        height,
        pitch,
        closed: DayList::empty(),
    }
}

fn shape_of(points: &[(i32, i32)]) -> Shape
    requires { length points.now ≤ 16 }
{
    let mut vertices = [Point { x: 0, y: 0 }; 16];
    for (i, p) in points.iter().enumerate() {
        vertices[i] = Point { x: p.0, y: p.1 };
    }
    match Shape::read(&vertices[..points.len()]) {
        Ok(shape) => shape,
        Err(_) => Shape::default(),
    }
}

fn square() -> Shape {
    shape_of(&[(0, 0), (2, 0), (2, 2), (0, 2)])
}

#[test]
fn square_beside_a_square(rt: HostRuntime) -> Result<(), NoMemory> {
    let plate = ground(4, 3, 1);
    let shape = square();
    let fixed = [(Obstacle::of(&square(), &shape), Point { x: 0, y: 0 })];
    let rows = FreeRows::new(rt.alloc(), &plate, &shape, &fixed)?;
    assert_eq!(rt; rows.count(), 2);
    assert_eq!(rt; rows.first_from(0, 0), Some(Point { x: 2, y: 0 }));
    assert_eq!(rt; rows.first_from(0, 3), Some(Point { x: 2, y: 1 }));
    assert_eq!(rt; rows.first_from(1, 3), None);
    let mut points = rows.points();
    assert_eq!(rt; points.next(), Some(Point { x: 2, y: 0 }));
    assert_eq!(rt; points.next(), Some(Point { x: 2, y: 1 }));
    assert_eq!(rt; points.next(), None);
    Ok(())
}

/// Two fixed shapes and their positions.
#[derive(Drop)]
struct Pieces {
    first: Shape,
    first_at: Point,
    second: Shape,
    second_at: Point,
}

/// Whether the shape may stand at the position, by the test of this position alone.
fn may_stand(plate: &Plate, shape: &Shape, pieces: &Pieces, p: Point) -> bool
    requires first { IsWithin 400 pieces.now.first_at }
    requires second { IsWithin 400 pieces.now.second_at }
    requires p { IsWithin 400 p }
    requires pitch { 1 ≤ plate.now.pitch }
{
    let (width, height) = shape.extent();
    let pitch = i32::from(plate.pitch);
    p.x % pitch == 0
        && p.y % pitch == 0
        && p.x + width <= i32::from(plate.width)
        && p.y + height <= i32::from(plate.height)
        && apart(&pieces.first, pieces.first_at, shape, p)
        && apart(&pieces.second, pieces.second_at, shape, p)
}

/// The positions from (0, 0) to (12, 12) at which the shape may stand, by the test of each, in order.
fn plain_points(
    alloc: Global,
    plate: &Plate,
    shape: &Shape,
    pieces: &Pieces,
) -> Result<Vec<Point>, NoMemory>
    requires first { IsWithin 400 pieces.now.first_at }
    requires second { IsWithin 400 pieces.now.second_at }
    requires pitch { 1 ≤ plate.now.pitch }
{
    let mut points = Vec::new(alloc);
    for i in 0..169_u16 {
        let p = Point {
            x: i32::from(i % 13),
            y: i32::from(i / 13),
        };
        if may_stand(plate, shape, pieces, p) {
            points.push(p)?;
        }
    }
    Ok(points)
}

/// The first of the positions at or after the one of y and x.
fn plain_first(points: &[Point], y: u16, x: u16) -> Option<Point> {
    for p in points {
        if p.y > i32::from(y) || p.y == i32::from(y) && p.x >= i32::from(x) {
            return Some(*p);
        }
    }
    None
}

/// How many of the calls differ from what the plain program gives.
fn wrong_answers(rows: &FreeRows, plain: &[Point]) -> u32 {
    let mut wrong = 0_u32;
    if rows.count() as usize != plain.len() {
        wrong = wrong.saturating_add(1);
    }
    let mut points = rows.points();
    for p in plain {
        if points.next() != Some(*p) {
            wrong = wrong.saturating_add(1);
        }
    }
    if points.next().is_some() {
        wrong = wrong.saturating_add(1);
    }
    for i in 0..196_u16 {
        let (y, x) = (i / 14, i % 14);
        if rows.first_from(y, x) != plain_first(plain, y, x) {
            wrong = wrong.saturating_add(1);
        }
    }
    wrong
}

/// The wrong answers on a plate of so many units and this pitch, for a shape among two others.
fn wrong_on(
    alloc: Global,
    size: (u16, u16, u16),
    shape: &Shape,
    pieces: &Pieces,
) -> Result<u32, NoMemory>
    requires width { size.0 ≤ 400 }
    requires height { size.1 ≤ 400 }
    requires pitch { (1 ≤ size.2) × (size.2 ≤ 100) }
    requires first { IsAt pieces.now.first_at }
    requires second { IsAt pieces.now.second_at }
{
    let plate = ground(size.0, size.1, size.2);
    let fixed = [
        (Obstacle::of(&pieces.first, shape), pieces.first_at),
        (Obstacle::of(&pieces.second, shape), pieces.second_at),
    ];
    let rows = FreeRows::new(alloc, &plate, shape, &fixed)?;
    let plain = plain_points(alloc, &plate, shape, pieces)?;
    Ok(wrong_answers(&rows, &plain))
}

#[test]
fn small_plates_agree_with_single_positions(rt: HostRuntime) -> Result<(), NoMemory> {
    let shapes = [
        square(),
        shape_of(&[(0, 0), (3, 0), (0, 3)]),
        shape_of(&[(1, 0), (3, 0), (4, 2), (3, 4), (1, 4), (0, 2)]),
        shape_of(&[(0, 0), (9, 0), (9, 1), (0, 1)]),
    ];
    let pieces = Pieces {
        first: shape_of(&[(0, 0), (4, 1), (5, 3), (2, 5)]),
        first_at: Point { x: 3, y: 2 },
        second: square(),
        second_at: Point { x: 9, y: 0 },
    };
    for (i, shape) in shapes.iter().enumerate() {
        for (width, height) in [(12, 12), (11, 6), (8, 3), (4, 4), (2, 1)] {
            for pitch in [1, 2, 3, 5] {
                let wrong = wrong_on(rt.alloc(), (width, height, pitch), shape, &pieces)?;
                assert_eq!(rt; wrong, 0, "shape {i} on {width}x{height} at pitch {pitch}");
            }
        }
    }
    Ok(())
}
