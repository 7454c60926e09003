//! Small yards of one block.
ghost use Rattle.std.specs.Prelude.{◌≡◌, ◌≤◌, true};
ghost use Rattle.std.specs.List.{list_any};
ghost use Rattle.shape_exact.specs.Days.{are_days};
ghost use Rattle.shape_exact.specs.Yards.{IsPlate, IsBlock, has_name, plate_names};

use shape_exact::{Block, DayList, Name, Plate, Point, Shape, Yard};
use std::process::Abort;

/// A yard: its days, two plates as width, height, pitch and a closed day (400 for none; no plate where the width is 0),
/// and a block as its corners, turns, duration, release, due day and early cost.
#[derive(Clone, Copy)]
pub(crate) struct Row(
    pub(crate) u16,
    pub(crate) [(u16, u16, u16, u16); 2],
    pub(crate) [(i32, i32); 4],
    pub(crate) [bool; 4],
    pub(crate) u16,
    pub(crate) u16,
    pub(crate) u16,
    pub(crate) u16,
);

fn any_turn(turns: &[bool]) -> bool
    ensures { result ≡ list_any (λ t. t) turns.now }
{
    for turn in turns {
        if *turn {
            return true;
        }
    }
    false
}

fn has_plate(plates: &[Plate], name: &[u8]) -> bool
    ensures { result ≡ has_name (plate_names plates.now) name.now }
{
    for plate in plates {
        if plate.name.bytes() == name {
            return true;
        }
    }
    false
}

fn name_of(rt: &impl Abort, letter: u8) -> Name {
    Name::read(&[letter]).expect(rt, "a name")
}

fn closed_of(days: u16, day: u16) -> DayList
    requires { days ≤ 400 }
    ensures { are_days 0 days result ≡ true }
{
    let mut closed = DayList::empty();
    if day < days {
        closed.put(day);
    }
    closed
}

fn plate_of(rt: &impl Abort, days: u16, letter: u8, sizes: (u16, u16, u16, u16)) -> Plate
    requires { days ≤ 400 }
    ensures { IsPlate days result }
{
    let (width, height, pitch, day) = sizes;
    assert!(rt; 1 <= width && width <= 400);
    assert!(rt; 1 <= height && height <= 400);
    assert!(rt; 1 <= pitch && pitch <= 100);
    let name = name_of(rt, letter);
    let _bytes = name.bytes();
    Plate {
        name,
        width,
        height,
        pitch,
        closed: closed_of(days, day),
    }
}

fn add_plate(rt: &impl Abort, yard: &mut Yard, letter: u8, sizes: (u16, u16, u16, u16)) {
    let days = yard.days();
    let plate = plate_of(rt, days, letter, sizes);
    assert!(rt; yard.plates().len() < 8);
    assert!(rt; !has_plate(yard.plates(), plate.name.bytes()));
    yard.add_plate(plate);
}

fn block_of(rt: &impl Abort, row: &Row) -> Block
    ensures { IsBlock result }
{
    let [a, b, c, d] = row.2;
    let corners = [
        Point { x: a.0, y: a.1 },
        Point { x: b.0, y: b.1 },
        Point { x: c.0, y: c.1 },
        Point { x: d.0, y: d.1 },
    ];
    let shape = Shape::read(&corners).expect(rt, "a footprint");
    let _corners = shape.points();
    let name = name_of(rt, b'A');
    let _bytes = name.bytes();
    let turns = row.3;
    assert!(rt; any_turn(&turns));
    let (duration, release, due, early) = (row.4, row.5, row.6, row.7);
    assert!(rt; 1 <= duration && duration <= 400);
    assert!(rt; release <= 399 && due <= 399 && early <= 1000);
    Block {
        name,
        shape,
        turns,
        duration,
        release,
        due,
        weight: 3,
        early,
    }
}

/// The yard of a row.
pub(crate) fn yard_of(rt: &impl Abort, row: &Row) -> Yard {
    assert!(rt; 1 <= row.0 && row.0 <= 400);
    let mut yard = Yard::start(row.0);
    let [first, second] = row.1;
    add_plate(rt, &mut yard, b'P', first);
    if second.0 > 0 {
        add_plate(rt, &mut yard, b'Q', second);
    }
    assert!(rt; yard.blocks().is_empty());
    yard.add_block(block_of(rt, row));
    yard
}
