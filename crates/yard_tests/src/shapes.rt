//! Each public call of reading and of the plain yard once, on the worked examples.

use shape_exact::{Block, DayList, Fixed, Name, Plate, Point, Shape, ShapeFault, Yard};
use std::process::Abort;

fn at(x: i32, y: i32) -> Point {
    Point { x, y }
}

#[test]
fn the_first_fault_is_told(rt: HostRuntime) {
    let star = [at(0, 0), at(10, 6), at(-2, 6), at(8, 0), at(4, 10)];
    assert_eq!(rt; Shape::read(&star).err(), Some(ShapeFault::NotConvex(0, 3)));
    let closed = [at(0, 0), at(2, 0), at(2, 2), at(0, 0)];
    assert_eq!(rt; Shape::read(&closed).err(), Some(ShapeFault::Equal(0, 3)));
    let line = [at(0, 0), at(1, 1), at(2, 2)];
    assert_eq!(rt; Shape::read(&line).err(), Some(ShapeFault::Flat));
    let outside = [at(0, 0), at(0, 0), at(i32::MIN, 0)];
    assert_eq!(rt; Shape::read(&outside).err(), Some(ShapeFault::Range(2)));
    assert_eq!(rt; Shape::read(&[]).err(), Some(ShapeFault::TooFew));
    assert_eq!(rt;
        Shape::read(&[at(0, 0); 17]).err(),
        Some(ShapeFault::TooMany)
    );
}

#[test]
fn a_clockwise_square_reads_counterclockwise(rt: HostRuntime) {
    let square = [at(0, 0), at(0, 2), at(1, 2), at(2, 2), at(2, 0)];
    let shape = Shape::read(&square).expect(&rt, "a square");
    let wanted = [at(0, 0), at(2, 0), at(2, 2), at(1, 2), at(0, 2)];
    assert_eq!(rt; shape.points(), &wanted[..]);
    assert_eq!(rt; shape.extent(), (2, 2));
}

#[test]
fn names_are_letters_digits_and_two_signs(rt: HostRuntime) {
    let name = Name::read(b"Az09_-").expect(&rt, "a name");
    assert_eq!(rt; name.bytes(), &b"Az09_-"[..]);
    assert!(rt; Name::read(b"").is_none());
    assert!(rt; Name::read(b"a b").is_none());
    assert!(rt; Name::read(&[b'a'; 32]).is_some());
    assert!(rt; Name::read(&[b'a'; 33]).is_none());
}

#[test]
fn a_yard_holds_its_parts_in_order(rt: HostRuntime) {
    let mut closed = DayList::empty();
    closed.put(6);
    closed.put(5);
    closed.put(6);
    assert_eq!(rt; closed.days(), &[5, 6][..]);
    let mut yard = Yard::start(10);
    yard.add_plate(Plate {
        name: Name::default(),
        width: 4,
        height: 3,
        pitch: 1,
        closed,
    });
    yard.add_block(Block {
        name: Name::default(),
        shape: Shape::default(),
        turns: [true, false, false, false],
        duration: 2,
        release: 0,
        due: 1,
        weight: 1,
        early: 0,
    });
    assert_eq!(rt;
        (yard.days(), yard.plates().len(), yard.blocks().len()),
        (10, 1, 1)
    );
}

/// A square piece of side 2 on plate 0.
fn piece(rt: &impl Abort, x: u16, from: u16, to: u16) -> Fixed {
    let corners = [at(0, 0), at(2, 0), at(2, 2), at(0, 2)];
    Fixed {
        plate: 0,
        shape: Shape::read(&corners).expect(rt, "a square"),
        x,
        y: 0,
        from,
        to,
    }
}

#[test]
fn pieces_stand_inside_and_apart(rt: HostRuntime) {
    let mut yard = Yard::start(10);
    yard.add_plate(Plate {
        name: Name::default(),
        width: 4,
        height: 3,
        pitch: 3,
        closed: DayList::empty(),
    });
    let first = piece(&rt, 1, 0, 1);
    assert!(rt; yard.can_add_fixed(&first));
    yard.add_fixed(first);
    assert_eq!(rt; yard.fixed().len(), 1);
    for (x, from, to, may) in [
        (1, 0, 1, false),
        (2, 1, 9, false),
        (2, 2, 9, true),
        (3, 2, 9, false),
        (0, 2, 10, false),
        (0, 3, 2, false),
        (0, 9, 9, true),
    ] {
        assert_eq!(rt; yard.can_add_fixed(&piece(&rt, x, from, to)), may);
    }
}
