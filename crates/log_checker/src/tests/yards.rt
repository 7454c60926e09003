//! Small yards of rectangles on one plate.
ghost use Rattle.std.specs.Prelude.{◌≡◌, ◌+◌, ◌≤◌, ◌<◌, ℕ, IsTrue, length, true};
ghost use Rattle.shape_exact.specs.Days.{are_days};
ghost use Rattle.shape_exact.specs.Yards.{IsBlock, IsPlate, block_names, has_name};

use code_table::{Codes, can_be_planned};
use shape_exact::{Block, DayList, Fixed, Name, NoMemory, Plate, Point, Shape, Yard};
use std::alloc::Global;
use std::process::Abort;

/// A block: the width and the height of its rectangle, its duration and due day, its weight and its early cost.
#[derive(Clone, Copy)]
pub(crate) struct Row {
    pub size: (i32, i32),
    pub days: (u16, u16),
    pub costs: (u16, u16),
}

/// Whether a block of the list has the name.
pub(crate) fn has_block(blocks: &[Block], name: &[u8]) -> bool
    ensures { result ≡ has_name (block_names blocks.now) name.now }
{
    for block in blocks {
        if block.name.bytes() == name {
            return true;
        }
    }
    false
}

/// The rectangle of this width and height.
fn rectangle(rt: &impl Abort, size: (i32, i32)) -> Shape {
    let (width, height) = size;
    let corners = [
        Point { x: 0, y: 0 },
        Point { x: width, y: 0 },
        Point {
            x: width,
            y: height,
        },
        Point { x: 0, y: height },
    ];
    Shape::read(&corners).expect(rt, "a rectangle")
}

/// The closed day, or none past the last day.
fn closed_of(days: u16, day: u16) -> DayList
    requires { days ≤ 400 }
    ensures { are_days 0 days result ≡ true }
{
    let mut closed = DayList::empty();
    if day < days {
        closed.put(day);
    }
    closed
}

/// The plate of this size, closed on a day.
fn plate_of(rt: &impl Abort, days: u16, size: (u16, u16), closed: u16) -> Plate
    requires { days ≤ 400 }
    ensures { IsPlate days result }
{
    let (width, height) = size;
    assert!(rt; 1 <= width && width <= 400);
    assert!(rt; 1 <= height && height <= 400);
    let name = Name::default();
    let _bytes = name.bytes();
    Plate {
        name,
        width,
        height,
        pitch: 1,
        closed: closed_of(days, closed),
    }
}

/// The block of a row, under a name.
fn block_of(rt: &impl Abort, name: Name, row: Row) -> Block
    ensures limits { IsBlock result }
    ensures name { result.name ≡ name }
{
    let (duration, due) = row.days;
    let (weight, early) = row.costs;
    assert!(rt; 1 <= duration && duration <= 400 && due <= 399);
    assert!(rt; weight <= 1000 && early <= 1000);
    let shape = rectangle(rt, row.size);
    let _corners = shape.points();
    let _bytes = name.bytes();
    Block {
        name,
        shape,
        turns: [true, false, false, false],
        duration,
        release: 0,
        due,
        weight,
        early,
    }
}

/// A yard of so many days with one plate of this size, closed on a day, and the blocks of the rows.
pub(crate) fn yard_of(
    rt: &impl Abort,
    days: u16,
    size: (u16, u16),
    closed: u16,
    rows: &[Row],
) -> Yard {
    assert!(rt; 1 <= days && days <= 400);
    let mut yard = Yard::start(days);
    yard.add_plate(plate_of(rt, days, size, closed));
    for (i, row) in rows.iter().enumerate() {
        let name = Name::read(&[b'A' + (i % 26) as u8]).expect(rt, "a name");
        let block = block_of(rt, name, *row);
        assert!(rt; yard.blocks().len() < 32 && !has_block(yard.blocks(), block.name.bytes()));
        yard.add_block(block);
    }
    yard
}

/// Adds a rectangle that stands from (0, 0) on the plate from one day to another.
pub(crate) fn add_piece(rt: &impl Abort, yard: &mut Yard, size: (i32, i32), days: (u16, u16)) {
    let piece = Fixed {
        plate: 0,
        shape: rectangle(rt, size),
        x: 0,
        y: 0,
        from: days.0,
        to: days.1,
    };
    assert!(rt; yard.can_add_fixed(&piece));
    yard.add_fixed(piece);
}

/// The codes of a yard.
pub(crate) fn codes_of(rt: &impl Abort, alloc: Global, yard: &Yard) -> Result<Codes, NoMemory> {
    assert!(rt; can_be_planned(yard));
    Codes::new(alloc, yard)
}
