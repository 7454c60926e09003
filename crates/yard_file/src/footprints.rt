//! Reads footprints.
ghost use Rattle.std.specs.Prelude.{◌≡◌, ◌≤◌, [], length, option_map};
ghost use Rattle.toml.specs.View.{view, items_view};
ghost use Rattle.shape_exact.specs.Reading.{shape_of};
ghost use Rattle.yard_file.specs.Footprints.{all_points, block_shape, piece_shape, point_of, points_in, points_items, points_of};
ghost use Rattle.yard_file.specs.Values.{viewed};
ghost use Rattle.yard_file.specs.Held.{held, held_at, held_from};

use crate::{At, Key, YardFault};
use arrayvec::ArrayVec;
use shape_exact::{Point, Shape, ShapeFault};
use toml::Value;

/// The coordinate of an integer. One that a point cannot hold is out of range, as is the greatest that it can hold.
fn held(number: i64) -> i32
    ensures { result ≡ held number }
{
    match i32::try_from(number) {
        Ok(n) => n,
        Err(_) => i32::MAX,
    }
}

/// The point of an array of two integers.
fn point_of(value: &Value) -> Option<(i64, i64)>
    ensures { option_map (λ p. record { x = p.0; y = p.1 }) result ≡ point_of (view value.now) }
{
    let pair = value.as_array()?;
    if pair.len() != 2 {
        return None;
    }
    let x = pair[0].as_integer()?;
    let y = pair[1].as_integer()?;
    Some((x, y))
}

/// Whether every item is a point.
fn all_points(items: &[Value]) -> bool
    ensures { result ≡ all_points (items_view items.now) }
{
    for value in items {
        if point_of(value).is_none() {
            return false;
        }
    }
    true
}

/// The point of a value, as it is held.
fn held_point(value: &Value) -> Point
    ensures { result ≡ held_at (view value.now) }
{
    match point_of(value) {
        Some((x, y)) => Point {
            x: held(x),
            y: held(y),
        },
        None => Point { x: 0, y: 0 },
    }
}

/// The points of an array, as they are held.
fn held_points(items: &[Value]) -> ArrayVec<Point, 16>
    requires { length items.now ≤ 16 }
    ensures { result.items ≡ held_from [] (items_view items.now) }
{
    let mut points = ArrayVec::new();
    for value in items {
        points.push(held_point(value));
    }
    points
}

/// The footprint of an array of points.
fn footprint(items: &[Value]) -> Result<Shape, ShapeFault>
    ensures { result ≡ shape_of (points_of (items_view items.now)) }
{
    if items.len() > 16 {
        return Err(ShapeFault::TooMany);
    }
    Shape::read(held_points(items).as_slice())
}

/// The items, where every one is a point.
fn only_points(items: &[Value], at: At) -> Result<&[Value], YardFault>
    ensures { viewed (λ s. points_of (items_view s.now)) result ≡ points_items at (items_view items.now) }
{
    if all_points(items) {
        Ok(items)
    } else {
        Err(YardFault::Kind(at, Key::Shape))
    }
}

/// The items of an array of points.
fn points_at(value: Option<&Value>, at: At) -> Result<&[Value], YardFault>
    ensures { viewed (λ s. points_of (items_view s.now)) result ≡ points_in at (option_map (λ v. view v.now) value.entry) }
{
    let Some(value) = value else {
        return Err(YardFault::Missing(at, Key::Shape));
    };
    match value.as_array() {
        Some(items) => only_points(items.as_slice(), at),
        None => Err(YardFault::Kind(at, Key::Shape)),
    }
}

/// The footprint of a block.
pub(crate) fn block_shape(value: Option<&Value>, block: u8) -> Result<Shape, YardFault>
    ensures { result ≡ block_shape block (option_map (λ v. view v.now) value.entry) }
{
    match footprint(points_at(value, At::Block(block))?) {
        Ok(shape) => Ok(shape),
        Err(fault) => Err(YardFault::Shape(block, fault)),
    }
}

/// The footprint of a fixed piece before it is turned.
pub(crate) fn piece_shape(value: Option<&Value>, piece: u8) -> Result<Shape, YardFault>
    ensures { result ≡ piece_shape piece (option_map (λ v. view v.now) value.entry) }
{
    match footprint(points_at(value, At::Fixed(piece))?) {
        Ok(shape) => Ok(shape),
        Err(fault) => Err(YardFault::FixedShape(piece, fault)),
    }
}
