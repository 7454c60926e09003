//! Codes against a plain listing of the placements, and the counts of worked yards.

mod listing;
mod yards;

use code_table::{Codes, Placement, can_be_planned, placement_count};
use listing::listing;
use shape_exact::Yard;
use std::alloc::Global;
use std::process::Abort;
use std::test::Fail;
use yards::{Row, yard_of};

/// The codes of a block agree with the listing, one by one.
fn agree(rt: &impl Abort, alloc: Global, codes: &Codes, block: u8) -> Result<(), Fail> {
    let placed = listing(rt, alloc, codes.yard(), block)?;
    assert!(rt; (block as usize) < codes.yard().blocks().len());
    assert_eq!(rt; codes.count(block) as usize, placed.len());
    let due = codes.yard().blocks()[block as usize].due;
    let early = codes.yard().blocks()[block as usize].early;
    let mut least: Option<u32> = None;
    for (i, placement) in placed.iter().enumerate() {
        let code = i as u32;
        assert!(rt; code < codes.count(block));
        assert_eq!(rt; codes.place(block, code), *placement);
        assert_eq!(rt; codes.code(block, placement), Some(code));
        let late = 3 * placement.end.saturating_sub(due) as u32;
        let cost = late + early as u32 * due.saturating_sub(placement.end) as u32;
        assert_eq!(rt; codes.own_cost(block, code), cost);
        least = Some(least.unwrap_or(cost).min(cost));
    }
    assert_eq!(rt; codes.least_cost(block), least);
    Ok(())
}

/// Whether two placements share their start, their plate and their turn.
fn stand_together(one: &Placement, two: &Placement) -> bool {
    one.start == two.start && one.plate == two.plate && one.turn == two.turn
}

/// The stretch of each code of a block has the places of the listing that share its start, its plate and its turn.
fn stretches_agree(rt: &impl Abort, alloc: Global, codes: &Codes, block: u8) -> Result<(), Fail> {
    let placed = listing(rt, alloc, codes.yard(), block)?;
    assert!(rt; (block as usize) < codes.yard().blocks().len());
    assert_eq!(rt; codes.count(block) as usize, placed.len());
    for (i, placement) in placed.iter().enumerate() {
        let code = i as u32;
        assert!(rt; code < codes.count(block));
        let stretch = codes.stretch(block, code);
        assert_eq!(rt; codes.place_in(block, stretch, code), *placement);
        for (j, other) in placed.iter().enumerate() {
            let inside = stretch.lo <= j as u32 && (j as u32) < stretch.hi;
            assert_eq!(rt; inside, stand_together(placement, other));
        }
    }
    Ok(())
}

#[test]
fn stretches_share_a_start_a_plate_and_a_turn(rt: HostRuntime) -> Result<(), Fail> {
    let slope = [(0, 0), (3, 0), (1, 2), (0, 2)];
    let square = [(0, 0), (2, 0), (2, 2), (0, 2)];
    let (two, all) = ([true, false, true, false], [true; 4]);
    let rows = [
        Row(3, [(5, 4, 1, 0), (4, 5, 2, 400)], slope, all, 1, 1, 0, 0),
        Row(5, [(6, 3, 3, 2), (2, 2, 1, 2)], slope, two, 2, 0, 3, 0),
        Row(4, [(7, 5, 4, 3), (2, 3, 1, 400)], slope, all, 1, 2, 0, 0),
        Row(4, [(4, 4, 3, 3), (4, 4, 1, 0)], square, two, 2, 1, 2, 0),
    ];
    for row in &rows {
        let yard = yard_of(&rt, row);
        assert!(rt; can_be_planned(&yard));
        let codes = Codes::new(rt.alloc(), &yard)?;
        stretches_agree(&rt, rt.alloc(), &codes, 0)?;
    }
    Ok(())
}

#[test]
fn codes_are_positions_in_the_listing(rt: HostRuntime) -> Result<(), Fail> {
    let square = [(0, 0), (2, 0), (2, 2), (0, 2)];
    let unit = [(0, 0), (1, 0), (1, 1), (0, 1)];
    let slope = [(0, 0), (3, 0), (1, 2), (0, 2)];
    let none = (0, 0, 0, 0);
    let (one, two, all) = (
        [true, false, false, false],
        [true, false, true, false],
        [true; 4],
    );
    let rows = [
        Row(10, [(4, 3, 1, 400), none], square, one, 2, 0, 1, 0),
        Row(10, [(1, 3, 1, 400), none], square, one, 2, 0, 1, 0),
        Row(10, [(4, 3, 1, 5), none], square, one, 2, 4, 6, 0),
        Row(4, [(4, 4, 2, 1), (3, 3, 1, 2)], square, all, 2, 0, 1, 0),
        Row(3, [(5, 4, 1, 0), (4, 5, 2, 400)], slope, all, 1, 1, 0, 0),
        Row(5, [(6, 3, 3, 2), (2, 2, 1, 2)], slope, two, 2, 0, 3, 0),
        Row(3, [(3, 3, 1, 400), (2, 4, 3, 0)], unit, two, 3, 0, 399, 0),
        Row(4, [(7, 5, 4, 3), none], slope, all, 1, 2, 0, 0),
        Row(2, [(2, 2, 1, 1), (1, 1, 1, 0)], unit, one, 1, 0, 0, 0),
        Row(2, [(3, 2, 1, 400), none], slope, one, 1, 7, 0, 0),
        Row(1, [(3, 2, 1, 400), (2, 3, 1, 400)], slope, all, 1, 0, 0, 0),
        Row(6, [(4, 4, 3, 3), (4, 4, 1, 0)], square, two, 4, 1, 2, 0),
        Row(9, [(4, 3, 1, 400), none], square, one, 2, 0, 5, 2),
        Row(4, [(4, 3, 1, 400), none], square, one, 2, 0, 5, 2),
        Row(9, [(3, 3, 1, 5), (2, 2, 1, 3)], square, one, 1, 0, 5, 1000),
    ];
    for row in &rows {
        let yard = yard_of(&rt, row);
        assert!(rt; can_be_planned(&yard));
        let codes = Codes::new(rt.alloc(), &yard)?;
        agree(&rt, rt.alloc(), &codes, 0)?;
    }
    Ok(())
}

#[test]
fn counts_of_worked_yards(rt: HostRuntime) {
    let square = [(0, 0), (2, 0), (2, 2), (0, 2)];
    let unit = [(0, 0), (1, 0), (1, 1), (0, 1)];
    let none = (0, 0, 0, 0);
    let turns = [true, false, false, false];
    let rows = [
        (
            Row(10, [(4, 3, 1, 400), none], square, turns, 2, 0, 1, 0),
            54,
        ),
        (
            Row(10, [(1, 3, 1, 400), none], square, turns, 2, 0, 1, 0),
            0,
        ),
        (
            Row(256, [(64, 64, 1, 400), none], unit, turns, 1, 0, 1, 0),
            1048576,
        ),
        (
            Row(256, [(64, 65, 1, 400), none], unit, turns, 1, 0, 1, 0),
            1064960,
        ),
    ];
    for (row, count) in &rows {
        let yard = yard_of(&rt, row);
        assert!(rt; !yard.blocks().is_empty());
        assert_eq!(rt; placement_count(&yard, 0), *count);
    }
}
