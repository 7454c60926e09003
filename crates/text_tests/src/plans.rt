//! Texts of a yard of one block, written by hand.

mod early;

use code_table::Codes;
use plan_text::{PlanFault, print_plan, read_plan};
use sample_yards::ONE_BLOCK;
use std::alloc::Global;
use std::process::Abort;
use std::test::Fail;

const FIRST: &[u8] = b"plan 1\nblock A plate P turn 0 x 0 y 0 start 0 end 1 tardiness 0\ntotal 0\n";

const LATE: &[u8] = b"plan 1\nblock A plate P turn 0 x 2 y 1 start 5 end 6 tardiness 5\ntotal 5\n";

const NONE: &[u8] = b"no plan\n";

const MORE: &[u8] =
    b"plan 1\nblock A plate P turn 0 x 0 y 0 start 0 end 1 tardiness 0\ntotal 0\n\n";

const ZEROS: &[u8] =
    b"plan 1\nblock A plate P turn 0 x 0 y 0 start 0 end 1 tardiness 0\ntotal 00\n";

const ONE: &[u8] = b"plan 1\nblock A plate P turn 0 x 0 y 0 start 0 end 1 tardiness 0\ntotal 1\n";

/// The codes of the yard of one block.
fn codes_of(alloc: Global) -> Result<Codes, Fail> {
    Ok(sample_yards::codes_of(alloc, ONE_BLOCK)?)
}

#[test]
fn what_is_read_is_printed_again(rt: HostRuntime) -> Result<(), Fail> {
    let codes = codes_of(rt.alloc())?;
    for text in [FIRST, LATE, NONE] {
        let plan = read_plan(rt.alloc(), &codes, text)?;
        let printed = print_plan(rt.alloc(), &codes, plan.as_ref())?;
        assert_eq!(rt; printed.as_slice(), text);
    }
    Ok(())
}

/// The text is refused with this fault.
fn is_refused(rt: &impl Abort, alloc: Global, codes: &Codes, text: &[u8], fault: PlanFault) {
    match read_plan(alloc, codes, text) {
        Ok(_) => assert!(rt; false, "a text with a fault was read"),
        Err(found) => assert_eq!(rt; found, fault),
    }
}

/// A text of the head and any of these lines is refused with this fault.
fn are_refused(
    rt: &impl Abort,
    alloc: Global,
    lines: &[&[u8]],
    fault: PlanFault,
) -> Result<(), Fail> {
    let codes = codes_of(alloc)?;
    for line in lines {
        let mut text = Vec::new(alloc);
        text.extend_from_slice(b"plan 1\n")?;
        text.extend_from_slice(line)?;
        text.push(b'\n')?;
        is_refused(rt, alloc, &codes, text.as_slice(), fault);
    }
    Ok(())
}

#[test]
fn the_first_and_the_last_line_are_asked_for(rt: HostRuntime) -> Result<(), Fail> {
    let codes = codes_of(rt.alloc())?;
    let rows: [(&[u8], PlanFault); 10] = [
        (b"", PlanFault::Line(1)),
        (b"no plan", PlanFault::Line(1)),
        (b"no plan\n\n", PlanFault::Rest),
        (b"plan 2\n", PlanFault::Line(1)),
        (b"plan 1\n", PlanFault::Line(2)),
        (&FIRST[..FIRST.len() - 8], PlanFault::Line(3)),
        (&FIRST[..FIRST.len() - 1], PlanFault::Line(3)),
        (MORE, PlanFault::Rest),
        (ZEROS, PlanFault::Line(3)),
        (ONE, PlanFault::Figure(3, 1, 0)),
    ];
    for (text, fault) in rows {
        is_refused(&rt, rt.alloc(), &codes, text, fault);
    }
    Ok(())
}

#[test]
fn a_line_of_another_form_is_told(rt: HostRuntime) -> Result<(), Fail> {
    are_refused(
        &rt,
        rt.alloc(),
        &[
            b"block A plate P turn 0 x 00 y 0 start 0 end 1 tardiness 0",
            b"block A plate P turn 0 x 4294967296 y 0 start 0 end 1 tardiness 0",
            b"block A plate P turn 0 y 0 x 0 start 0 end 1 tardiness 0",
            b"block A plate P turn 0 x 0 y 0 start 0 end 1 tardiness 0 ",
            b"block A.B plate P turn 0 x 0 y 0 start 0 end 1 tardiness 0",
        ],
        PlanFault::Line(2),
    )
}

#[test]
fn another_block_or_no_plate_is_told(rt: HostRuntime) -> Result<(), Fail> {
    are_refused(
        &rt,
        rt.alloc(),
        &[
            b"block B plate P turn 0 x 0 y 0 start 0 end 1 tardiness 0",
            b"block A plate A turn 0 x 9 y 0 start 0 end 1 tardiness 0",
        ],
        PlanFault::Name(2),
    )
}

#[test]
fn what_is_no_placement_is_told(rt: HostRuntime) -> Result<(), Fail> {
    are_refused(
        &rt,
        rt.alloc(),
        &[
            b"block A plate P turn 0 x 3 y 0 start 0 end 1 tardiness 0",
            b"block A plate P turn 1 x 0 y 0 start 0 end 1 tardiness 0",
            b"block A plate P turn 0 x 0 y 0 start 9 end 9 tardiness 8",
            b"block A plate P turn 256 x 0 y 0 start 0 end 1 tardiness 0",
            b"block A plate P turn 0 x 0 y 0 start 65536 end 1 tardiness 0",
            b"block A plate P turn 0 x 65536 y 0 start 0 end 1 tardiness 0",
            b"block A plate P turn 0 x 4294967295 y 0 start 0 end 1 tardiness 0",
        ],
        PlanFault::NotAPlacement(2),
    )
}

#[test]
fn a_wrong_figure_is_told_with_the_true_one(rt: HostRuntime) -> Result<(), Fail> {
    are_refused(
        &rt,
        rt.alloc(),
        &[
            b"block A plate P turn 0 x 0 y 0 start 0 end 2 tardiness 0",
            b"block A plate P turn 0 x 0 y 0 start 0 end 2 tardiness 1",
        ],
        PlanFault::Figure(2, 2, 1),
    )?;
    are_refused(
        &rt,
        rt.alloc(),
        &[b"block A plate P turn 0 x 0 y 0 start 5 end 6 tardiness 4"],
        PlanFault::Figure(2, 4, 5),
    )
}

#[test]
fn each_fault_has_its_line(rt: HostRuntime) -> Result<(), Fail> {
    let rows: [(PlanFault, &[u8]); 6] = [
        (PlanFault::Line(1), b"refused plan 1 Line 1\n"),
        (PlanFault::Name(2), b"refused plan 2 Name 2\n"),
        (
            PlanFault::NotAPlacement(2),
            b"refused plan 3 NotAPlacement 2\n",
        ),
        (PlanFault::Figure(2, 2, 1), b"refused plan 4 Figure 2 2 1\n"),
        (PlanFault::Rest, b"refused plan 5 Rest\n"),
        (PlanFault::Memory, b""),
    ];
    for (fault, line) in rows {
        assert_eq!(rt; fault.line(rt.alloc())?.as_slice(), line);
    }
    Ok(())
}
