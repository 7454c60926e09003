//! Small yards, part by part, and yards of parts drawn from a row of numbers.
ghost use Rattle.std.specs.Prelude.{◌≡◌, ◌≤◌, ◌<◌, true};
ghost use Rattle.std.specs.List.{list_any};
ghost use Rattle.shape_exact.specs.Days.{are_days};
ghost use Rattle.shape_exact.specs.Yards.{block_names, has_name, plate_names};

use code_table::{Codes, can_be_planned};
use shape_exact::{Block, DayList, Fixed, Name, NoMemory, Plate, Point, Shape, Yard};
use std::alloc::Global;
use std::process::Abort;

pub(crate) const AS_IT_IS: [bool; 4] = [true, false, false, false];

fn any_turn(turns: &[bool]) -> bool
    ensures { result ≡ list_any (λ t. t) turns.now }
{
    for turn in turns {
        if *turn {
            return true;
        }
    }
    false
}

fn has_plate(plates: &[Plate], name: &[u8]) -> bool
    ensures { result ≡ has_name (plate_names plates.now) name.now }
{
    for plate in plates {
        if plate.name.bytes() == name {
            return true;
        }
    }
    false
}

fn has_block(blocks: &[Block], name: &[u8]) -> bool
    ensures { result ≡ has_name (block_names blocks.now) name.now }
{
    for block in blocks {
        if block.name.bytes() == name {
            return true;
        }
    }
    false
}

fn closed_of(days: u16, day: u16) -> DayList
    requires { days ≤ 400 }
    ensures { are_days 0 days result ≡ true }
{
    let mut closed = DayList::empty();
    if day < days {
        closed.put(day);
    }
    closed
}

/// The footprint with these corners.
pub(crate) fn shape_of(rt: &impl Abort, corners: &[(i32, i32)]) -> Shape {
    assert!(rt; corners.len() <= 16);
    let mut points = [Point { x: 0, y: 0 }; 16];
    for (i, corner) in corners.iter().enumerate() {
        points[i] = Point {
            x: corner.0,
            y: corner.1,
        };
    }
    Shape::read(&points[..corners.len()]).expect(rt, "a footprint")
}

pub(crate) fn rectangle(rt: &impl Abort, width: i32, height: i32) -> Shape {
    shape_of(rt, &[(0, 0), (width, 0), (width, height), (0, height)])
}

/// A yard of so many days.
pub(crate) fn yard_of(rt: &impl Abort, days: u16) -> Yard {
    assert!(rt; 1 <= days && days <= 400);
    Yard::start(days)
}

/// Adds a plate: its width, height and pitch, and the day on which it is closed, 400 for none.
pub(crate) fn add_plate(rt: &impl Abort, yard: &mut Yard, sizes: (u16, u16, u16), day: u16) {
    let (width, height, pitch) = sizes;
    assert!(rt; 1 <= width && width <= 400);
    assert!(rt; 1 <= height && height <= 400);
    assert!(rt; 1 <= pitch && pitch <= 100);
    assert!(rt; yard.plates().len() < 8);
    let letter = b'P' + yard.plates().len() as u8;
    let name = Name::read(&[letter]).expect(rt, "a name");
    assert!(rt; !has_plate(yard.plates(), name.bytes()));
    let closed = closed_of(yard.days(), day);
    yard.add_plate(Plate {
        name,
        width,
        height,
        pitch,
        closed,
    });
}

/// Adds a block: its footprint and turns, its duration, release and due day, and its weight and early cost.
pub(crate) fn add_block(
    rt: &impl Abort,
    yard: &mut Yard,
    shape: Shape,
    turns: [bool; 4],
    days: (u16, u16, u16),
    costs: (u16, u16),
) {
    let (duration, release, due) = days;
    let (weight, early) = costs;
    assert!(rt; 1 <= duration && duration <= 400);
    assert!(rt; release <= 399 && due <= 399);
    assert!(rt; weight <= 1000 && early <= 1000);
    assert!(rt; any_turn(&turns));
    assert!(rt; yard.blocks().len() < 32);
    let letter = b'A' + yard.blocks().len() as u8;
    let name = Name::read(&[letter]).expect(rt, "a name");
    assert!(rt; !has_block(yard.blocks(), name.bytes()));
    let _corners = shape.points();
    yard.add_block(Block {
        name,
        shape,
        turns,
        duration,
        release,
        due,
        weight,
        early,
    });
}

/// Adds a piece, by its plate, footprint, place and days, where it may be added.
pub(crate) fn add_piece(
    yard: &mut Yard,
    plate: u8,
    shape: Shape,
    at: (u16, u16),
    days: (u16, u16),
) -> bool {
    let piece = Fixed {
        plate,
        shape,
        x: at.0,
        y: at.1,
        from: days.0,
        to: days.1,
    };
    if !yard.can_add_fixed(&piece) {
        return false;
    }
    yard.add_fixed(piece);
    true
}

/// The codes of a yard.
pub(crate) fn codes_of(rt: &impl Abort, alloc: Global, yard: &Yard) -> Result<Codes, NoMemory> {
    assert!(rt; can_be_planned(yard));
    Codes::new(alloc, yard)
}

/// The next number of a row without a pattern.
pub(crate) fn next(seed: u32) -> u32 {
    seed.wrapping_mul(1_664_525).wrapping_add(1_013_904_223)
}

/// A number below `end` from a place in such a row.
pub(crate) fn part(seed: u32, shift: u32, end: u16) -> u16
    requires shift { shift < 32 }
    requires end { 0 < end }
    ensures { result < end }
{
    ((seed >> shift) % u32::from(end)) as u16
}

/// One of five small footprints.
fn drawn_shape(rt: &impl Abort, seed: u32) -> Shape {
    match part(seed, 20, 5) {
        0 => rectangle(rt, 1, 1),
        1 => rectangle(rt, 2, 1),
        2 => rectangle(rt, 2, 2),
        3 => shape_of(rt, &[(0, 0), (3, 0), (0, 3)]),
        _ => shape_of(rt, &[(0, 0), (3, 0), (2, 2), (0, 2)]),
    }
}

/// A yard of one or two plates, three or four blocks and up to four pieces.
pub(crate) fn drawn_yard(rt: &impl Abort, first: u32) -> Yard {
    let mut seed = next(next(first));
    let mut yard = yard_of(rt, 6 + part(seed, 24, 3));
    add_plate(
        rt,
        &mut yard,
        (4 + part(seed, 10, 2), 3, 1),
        part(seed, 12, 9),
    );
    if seed % 2 == 1 {
        add_plate(rt, &mut yard, (4, 4, 2), 400);
    }
    for _ in 0..3 + part(seed, 16, 2) {
        seed = next(seed);
        let turns = [true, part(seed, 8, 3) == 0, part(seed, 9, 3) == 0, false];
        let days = (1 + part(seed, 12, 3), part(seed, 15, 4), part(seed, 18, 7));
        let costs = (part(seed, 22, 4), part(seed, 25, 3));
        let shape = drawn_shape(rt, seed);
        add_block(rt, &mut yard, shape, turns, days, costs);
    }
    for _ in 0..part(first, 0, 5) {
        seed = next(seed);
        let from = part(seed, 8, 5);
        let days = (from, from + part(seed, 12, 3));
        let at = (part(seed, 15, 4), part(seed, 18, 3));
        let _added = add_piece(&mut yard, 0, drawn_shape(rt, seed), at, days);
    }
    yard
}
