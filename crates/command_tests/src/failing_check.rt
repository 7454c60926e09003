//! `check` over a desk of which one call fails, and over texts that are cut off, in pieces of four bytes.

use super::checks::{FIRST, FIVE, SQUARES};
use super::failing::{bytes_of, pieces};
use scheduler_run::run;
use shape_exact::NoMemory;
use std::process::Abort;
use std::test::Fail;
use std::thread::Threads;
use yard_io::{DeskCall, MemoryDesk, OpenGate};

const CERTIFIED: &[u8] = b"certified\n";

/// A desk with these files, in pieces of four bytes.
fn desk_of<R: AllocGlobal>(
    rt: &R,
    yard: &[u8],
    plan: &[u8],
    log: &[u8],
) -> Result<MemoryDesk, NoMemory> {
    let mut desk = MemoryDesk::new(rt.alloc(), 4)?;
    desk.put("y", yard)?;
    desk.put("p", plan)?;
    desk.put("l", log)?;
    Ok(desk)
}

/// Checks the desk's files: the status and the line that is said. The files stay.
pub fn says<R: Threads + Sync + AllocGlobal + Abort>(
    rt: &R,
    yard: &[u8],
    plan: &[u8],
    log: &[u8],
    status: u8,
    said: &[u8],
) -> Result<(), Fail> {
    let mut desk = desk_of(rt, yard, plan, log)?;
    let ended = run(
        rt,
        rt.alloc(),
        &["check", "y", "p", "l"],
        &mut desk,
        &OpenGate,
    );
    assert_eq!(rt;
        ended.0,
        status,
        "of {} and {} bytes",
        plan.len(),
        log.len()
    );
    assert_eq!(rt;
        desk.said(),
        said,
        "of {} and {} bytes",
        plan.len(),
        log.len()
    );
    assert_eq!(rt; desk.file("y"), Some(yard));
    assert_eq!(rt; desk.file("p"), Some(plan));
    assert_eq!(rt; desk.file("l"), Some(log));
    Ok(())
}

/// Checks the plan of the squares where this call fails: the status, and how much of the one line is said.
fn fails<R: Threads + Sync + AllocGlobal + Abort>(
    rt: &R,
    yard: &[u8],
    call: DeskCall,
    nth: u64,
    status: u8,
    said: usize,
) -> Result<(), Fail> {
    let mut desk = desk_of(rt, yard, FIRST.as_bytes(), FIVE.as_bytes())?;
    desk.fail(call, nth)?;
    let ended = run(
        rt,
        rt.alloc(),
        &["check", "y", "p", "l"],
        &mut desk,
        &OpenGate,
    );
    assert_eq!(rt; ended.0, status, "{call:?} {nth}");
    assert_eq!(rt; desk.said(), &CERTIFIED[..said.min(10)], "{call:?} {nth}");
    assert_eq!(rt; desk.file("l"), Some(FIVE.as_bytes()), "{call:?} {nth}");
    Ok(())
}

#[test]
fn each_call_of_a_check_fails_in_turn(rt: HostRuntime) -> Result<(), Fail> {
    let yard = bytes_of(rt.alloc(), SQUARES)?;
    let yard = yard.as_slice();
    let reads = pieces(yard.len())
        .saturating_add(pieces(FIRST.len()))
        .saturating_add(pieces(FIVE.len()));
    for nth in 0..3 {
        fails(&rt, yard, DeskCall::Length, nth, 4, 0)?;
    }
    for nth in 0..reads {
        fails(&rt, yard, DeskCall::Read, nth, 4, 0)?;
    }
    for (nth, said) in [(0, 0), (1, 4), (2, 8)] {
        fails(&rt, yard, DeskCall::Say, nth, 5, said)?;
    }
    let not_made = [
        (DeskCall::Length, 3),
        (DeskCall::Read, reads),
        (DeskCall::Say, 3),
        (DeskCall::Fresh, 0),
        (DeskCall::Append, 0),
    ];
    for (call, nth) in not_made {
        fails(&rt, yard, call, nth, 0, 10)?;
    }
    Ok(())
}

/// A plan that is cut off is refused at the line that is not whole.
#[test]
fn each_front_of_a_plan_is_refused(rt: HostRuntime) -> Result<(), Fail> {
    let yard = bytes_of(rt.alloc(), SQUARES)?;
    let mut line = 1u64;
    for cut in 0..FIRST.len() {
        let said = format!(in rt.alloc(); "refused plan 1 Line {line}\n")?;
        let front = &FIRST.as_bytes()[..cut];
        says(
            &rt,
            yard.as_slice(),
            front,
            FIVE.as_bytes(),
            1,
            said.as_bytes(),
        )?;
        if FIRST.as_bytes()[cut] == b'\n' {
            line = line.saturating_add(1);
        }
    }
    Ok(())
}

/// A log that is cut off has no head, or no end.
#[test]
fn each_front_of_a_log_is_refused(rt: HostRuntime) -> Result<(), Fail> {
    let yard = bytes_of(rt.alloc(), SQUARES)?;
    for cut in 0..FIVE.len() {
        let said: &[u8] = if cut < 6 {
            b"refused log 1 Head\n"
        } else {
            b"refused log 3 NoEnd\n"
        };
        let front = &FIVE.as_bytes()[..cut];
        says(&rt, yard.as_slice(), FIRST.as_bytes(), front, 1, said)?;
    }
    Ok(())
}
