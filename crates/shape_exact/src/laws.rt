//! Laws of footprints, each the contract of a function that does nothing.
ghost use Rattle.std.specs.Prelude.{◌≡◌, ◌≤◌, ◌+◌, ◌↔◌, ℤ, pos, IsTrue};
ghost use Rattle.shape_exact.specs.Shapes.{AreApart, Spot, cells, is_inside, reach_x, reach_y, turned};
ghost use Rattle.shape_exact.specs.Separation.{moved};
ghost use Rattle.shape_exact.specs.Cells.{cells_on, centre_of, moved_spot};

use crate::{Point, Shape};

/// A turn keeps the number of cells.
pub fn turn_keeps_cells(shape: &Shape, turn: u8)
    requires { turn ≤ 3 }
    ensures { cells (turned turn shape.now) ≡ cells shape.now }
{
    let _ = shape.points();
}

/// Four quarter turns give the shape back.
pub fn four_turns_return(shape: &Shape)
    ensures { turned 4 shape.now ≡ shape.now }
{
    let _ = shape.points();
}

/// A spot that is shifted with the shape stays strictly inside it, or outside it.
pub fn shift_keeps_inside(shape: &Shape, at: Point, by: Point)
    ensures { (s : Spot) → is_inside shape.now (moved by at) (moved_spot by s) ≡ is_inside shape.now at s }
{}

/// A shape that stands within a rectangle, so wide and so high, has as many cells there as where it lies.
pub fn shift_keeps_cells(shape: &Shape, x: u16, y: u16, width: u16, height: u16)
    requires wide { x + reach_x shape.now ≤ width }
    requires high { y + reach_y shape.now ≤ height }
    ensures { cells_on width height shape.now (record { x = pos x; y = pos y }) ≡ cells shape.now }
{
    let _ = shape.points();
}

/// Apart is the same from either side.
pub fn apart_either_way(a: &Shape, at_a: Point, b: &Shape, at_b: Point)
    ensures { AreApart a.now at_a b.now at_b ↔ AreApart b.now at_b a.now at_a }
{}

/// Shapes that are apart share no cell.
pub fn apart_shares_no_cell(a: &Shape, at_a: Point, b: &Shape, at_b: Point)
    requires { AreApart a.now at_a b.now at_b }
    ensures { (i j : ℤ)
        → IsTrue (is_inside a.now at_a (centre_of i j))
        → IsTrue (is_inside b.now at_b (centre_of i j))
        → ⊥ }
{}
