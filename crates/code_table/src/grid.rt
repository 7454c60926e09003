//! How many positions a shape has on a plate.
ghost use Rattle.std.specs.Prelude.{◌≡◌, ℕ, ◌*◌, ◌≤◌, ◌<◌, IfSome, IfNone};
ghost use Rattle.shape_exact.specs.Shapes.{reach_x, reach_y};
ghost use Rattle.code_table.specs.Grids.{steps, columns, rows, IsPlaceOf, IsNoPosition};

use shape_exact::{Plate, Shape};

/// How many multiples of the pitch, from 0 on, leave room for a length within a size.
fn steps(pitch: u16, long: u16, size: u16) -> u16
    requires pitch { 1 ≤ pitch }
    requires size { size ≤ 400 }
    ensures value { result ≡ steps pitch long size }
    ensures few { result ≤ 401 }
{
    if long > size {
        0
    } else {
        (size - long) / pitch + 1
    }
}

/// How many positions a row of the plate has for the shape.
pub(crate) fn columns(plate: &Plate, shape: &Shape) -> u16
    requires pitch { 1 ≤ plate.now.pitch }
    requires width { plate.now.width ≤ 400 }
    ensures value { result ≡ columns plate.now shape.now }
    ensures few { result ≤ 401 }
{
    steps(plate.pitch, shape.extent().0 as u16, plate.width)
}

/// How many rows of positions the plate has for the shape.
pub(crate) fn rows(plate: &Plate, shape: &Shape) -> u16
    requires pitch { 1 ≤ plate.now.pitch }
    requires height { plate.now.height ≤ 400 }
    ensures value { result ≡ rows plate.now shape.now }
    ensures few { result ≤ 401 }
{
    steps(plate.pitch, shape.extent().1 as u16, plate.height)
}

/// The place of a position among those that the plate has for the shape, row by row. None where it is none of them.
pub(crate) fn place_in(plate: &Plate, shape: &Shape, y: u16, x: u16) -> Option<u32>
    requires pitch { 1 ≤ plate.now.pitch }
    requires width { plate.now.width ≤ 400 }
    requires height { plate.now.height ≤ 400 }
    ensures some { IfSome result (λ k. IsPlaceOf plate.now shape.now k y x) }
    ensures none { IfNone result (IsNoPosition plate.now shape.now y x) }
{
    let row = y / plate.pitch;
    let column = x / plate.pitch;
    if row * plate.pitch != y {
        return None;
    }
    if column * plate.pitch != x {
        return None;
    }
    if row >= rows(plate, shape) {
        return None;
    }
    let columns = columns(plate, shape);
    if column >= columns {
        return None;
    }
    Some(row as u32 * columns as u32 + column as u32)
}
