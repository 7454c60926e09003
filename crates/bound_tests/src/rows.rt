//! Bounds of small yards, worked by hand.

use super::boxes::{base_of, energy_of, fit_of, window_of};
use super::yards::{
    AS_IT_IS, add_block, add_piece, add_plate, codes_of, rectangle, shape_of, yard_of,
};
use shape_exact::Yard;
use std::process::Abort;
use std::test::Fail;
use tardiness_bounds::Bound::{Never, Number};
use tardiness_bounds::{Frontier, YardTables};

/// A plate of 3 by 2; a square of side 2 and a strip of 1 by 2, two days each, due on day 1, and a cell with one day's work.
fn three_blocks(rt: &impl Abort, days: u16, due: u16) -> Yard {
    let mut yard = yard_of(rt, days);
    add_plate(rt, &mut yard, (3, 2, 1), 400);
    add_block(
        rt,
        &mut yard,
        rectangle(rt, 2, 2),
        AS_IT_IS,
        (2, 0, 1),
        (2, 0),
    );
    add_block(
        rt,
        &mut yard,
        rectangle(rt, 1, 2),
        AS_IT_IS,
        (2, 0, 1),
        (3, 0),
    );
    add_block(
        rt,
        &mut yard,
        rectangle(rt, 1, 1),
        AS_IT_IS,
        (1, 0, due),
        (4, 0),
    );
    yard
}

/// The blocks need 13 cell days up to day 1, where the plate has 12. With the cell due later they need 12; with two days
/// there is no later day.
#[test]
fn more_work_than_the_days_hold(rt: HostRuntime) -> Result<(), Fail> {
    let alloc = rt.alloc();
    let none: &[(u8, u32)] = &[];
    let window = (0, 1);
    for (days, due, energy, best) in [
        (10, 1, Number(2), Some(window)),
        (10, 2, Number(0), None),
        (2, 1, Never, Some(window)),
    ] {
        let codes = codes_of(&rt, alloc, &three_blocks(&rt, days, due))?;
        assert_eq!(rt; base_of(&rt, alloc, &codes, none)?, Number(0));
        assert_eq!(rt; energy_of(&rt, alloc, &codes, none, window)?, energy);
        assert_eq!(rt; window_of(&rt, alloc, &codes, none)?, best);
    }
    Ok(())
}

/// The same with the cell due later, and a piece of one cell on day 0: it takes one of the 12 cell days.
#[test]
fn a_piece_takes_a_cell_day(rt: HostRuntime) -> Result<(), Fail> {
    let alloc = rt.alloc();
    let mut yard = three_blocks(&rt, 10, 2);
    assert!(rt; add_piece(&mut yard, 0, rectangle(&rt, 1, 1), (0, 0), (0, 0)));
    let codes = codes_of(&rt, alloc, &yard)?;
    assert_eq!(rt; energy_of(&rt, alloc, &codes, &[], (0, 1))?, Number(2));
    Ok(())
}

/// Two triangles that only fit a square together where one is turned.
#[test]
fn no_code_beside_a_triangle(rt: HostRuntime) -> Result<(), Fail> {
    let alloc = rt.alloc();
    let mut yard = yard_of(&rt, 1);
    add_plate(&rt, &mut yard, (4, 4, 1), 400);
    for _ in 0..2_u8 {
        let shape = shape_of(&rt, &[(0, 0), (4, 0), (0, 4)]);
        add_block(&rt, &mut yard, shape, AS_IT_IS, (1, 0, 0), (1, 0));
    }
    let codes = codes_of(&rt, alloc, &yard)?;
    assert_eq!(rt; base_of(&rt, alloc, &codes, &[(0, 0)])?, Number(0));
    assert_eq!(rt; fit_of(&rt, alloc, &codes, &[(0, 0)])?, Never);
    assert_eq!(rt; window_of(&rt, alloc, &codes, &[(0, 0), (1, 0)])?, None);
    Ok(())
}

/// Three squares of side 2 on a plate of their size, two days each, due on day 1.
fn three_squares(rt: &impl Abort) -> Yard {
    let mut yard = yard_of(rt, 10);
    add_plate(rt, &mut yard, (2, 2, 1), 400);
    for _ in 0..3_u8 {
        add_block(
            rt,
            &mut yard,
            rectangle(rt, 2, 2),
            AS_IT_IS,
            (2, 0, 1),
            (1, 0),
        );
    }
    yard
}

/// Two literals on the same days clash; the bounds do not mind. They take 16 cell days of 8, and the third block still ends
/// on day 2 or later, and on day 3 where it is not to clash.
#[test]
fn literals_that_clash_with_each_other(rt: HostRuntime) -> Result<(), Fail> {
    let alloc = rt.alloc();
    let codes = codes_of(&rt, alloc, &three_squares(&rt))?;
    let both = [(0, 0), (1, 0)];
    assert_eq!(rt; base_of(&rt, alloc, &codes, &both)?, Number(0));
    assert_eq!(rt; fit_of(&rt, alloc, &codes, &both)?, Number(2));
    assert_eq!(rt; energy_of(&rt, alloc, &codes, &both, (0, 1))?, Number(1));
    assert_eq!(rt; window_of(&rt, alloc, &codes, &both)?, Some((0, 1)));
    Ok(())
}

/// A block that is early by one day costs less than one that is late by one.
#[test]
fn early_is_cheaper_than_late(rt: HostRuntime) -> Result<(), Fail> {
    let alloc = rt.alloc();
    let mut yard = yard_of(&rt, 10);
    add_plate(&rt, &mut yard, (2, 2, 1), 400);
    for _ in 0..2_u8 {
        add_block(
            &rt,
            &mut yard,
            rectangle(&rt, 2, 2),
            AS_IT_IS,
            (1, 0, 5),
            (3, 1),
        );
    }
    let codes = codes_of(&rt, alloc, &yard)?;
    assert_eq!(rt; fit_of(&rt, alloc, &codes, &[])?, Number(0));
    assert_eq!(rt; fit_of(&rt, alloc, &codes, &[(0, 5)])?, Number(1));
    assert_eq!(rt; fit_of(&rt, alloc, &codes, &[(0, 4)])?, Number(1));
    Ok(())
}

/// A square of side 3 beside another on a plate of 4 by 3: it starts when the other has ended. Each start has two codes;
/// on day 2 they cost 10, and on day 3 they cost 15.
#[test]
fn a_frontier_grows_and_shrinks(rt: HostRuntime) -> Result<(), Fail> {
    let alloc = rt.alloc();
    let mut yard = yard_of(&rt, 10);
    add_plate(&rt, &mut yard, (4, 3, 1), 400);
    for _ in 0..2_u8 {
        add_block(
            &rt,
            &mut yard,
            rectangle(&rt, 3, 3),
            AS_IT_IS,
            (2, 0, 1),
            (5, 0),
        );
    }
    let codes = codes_of(&rt, alloc, &yard)?;
    let tables = YardTables::new(alloc, &codes)?;
    let mut frontier = Frontier::new(alloc, &tables)?;
    assert_eq!(rt; frontier.bound(), Number(0));
    assert!(rt; frontier.can_push(0, 0));
    frontier.push(0, 0);
    assert_eq!(rt; frontier.bound(), Number(10));
    assert!(rt; frontier.can_push(1, 0));
    assert!(rt; !frontier.may_fit(1, 0));
    assert_eq!(rt; frontier.least(1), Some(10));
    assert_eq!(rt; frontier.next_free(1, 0, u32::MAX), Some(4));
    assert_eq!(rt; frontier.next_free(1, 5, 10), Some(5));
    assert_eq!(rt; frontier.next_free(1, 0, 9), None);
    let mut free = frontier.free_codes(1, 0, 15);
    assert_eq!(rt; free.next(), Some(4));
    assert_eq!(rt; free.next(), Some(5));
    assert_eq!(rt; free.next(), Some(6));
    assert_eq!(rt; free.next(), Some(7));
    assert_eq!(rt; free.next(), None);
    assert_eq!(rt; free.next(), None);
    frontier.pop();
    assert_eq!(rt; frontier.bound(), Number(0));
    Ok(())
}
