//! Whether two turned footprints are apart, by their offset.
ghost use Rattle.std.specs.Prelude.{◌≡◌, ◌<◌, ◌≤◌, ◌↔◌, IfOk, IsTrue, length};
ghost use Rattle.shape_exact.specs.Yards.{PlainYard};
ghost use Rattle.log_checker.specs.ExactBlocks.{IsStanding};
ghost use Rattle.log_checker.specs.Offsets.{AreSoApart, IsOffset, offset_of};

use crate::exact::Exact;
use code_table::{Codes, Placement};
use shape_exact::{Point, apart};

/// The footprints of two blocks, each in a turn, and the way from the first one's place to the second one's.
#[derive(Clone, Copy)]
pub(crate) struct Offset {
    pub first: u8,
    pub first_turn: u8,
    pub second: u8,
    pub second_turn: u8,
    pub way: Point,
}

/// The offset of a block at a placement from an exact block.
pub(crate) fn offset_of(one: Exact, block: u8, place: Placement) -> Offset
    ensures { result ≡ offset_of one block place }
{
    Offset {
        first: one.block,
        first_turn: one.place.turn,
        second: block,
        second_turn: place.turn,
        way: Point {
            x: i32::from(place.x) - i32::from(one.place.x),
            y: i32::from(place.y) - i32::from(one.place.y),
        },
    }
}

/// Whether the footprints are apart.
pub(crate) fn are_apart(codes: &Codes, of: Offset) -> bool
    requires { IsOffset codes.now of }
    ensures { IsTrue result ↔ AreSoApart codes.now of }
{
    let first = codes.shape(of.first, of.first_turn);
    let second = codes.shape(of.second, of.second_turn);
    apart(first, Point { x: 0, y: 0 }, second, of.way)
}
