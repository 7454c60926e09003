//! Plans over a desk of which one call fails, in pieces of four bytes: each call of each kind in turn.

use super::checks::{FIRST, SQUARES};
use super::yards::*;
use scheduler_run::run;
use shape_exact::NoMemory;
use std::alloc::Global;
use std::process::Abort;
use std::test::Fail;
use std::thread::Threads;
use yard_io::{DeskCall, MemoryDesk, OpenGate};

const WORDS: [&str; 5] = ["plan", "y", "l", "1", "0"];

/// The bytes of the yard that these parts make.
pub fn bytes_of(alloc: Global, parts: &[&str]) -> Result<Vec<u8>, NoMemory> {
    let mut bytes = Vec::new(alloc);
    for part in parts {
        bytes.extend_from_slice(part.as_bytes())?;
    }
    Ok(bytes)
}

/// What a run over this yard ends with where this call fails: its status, and the desk.
pub fn ends<R: Threads + Sync + AllocGlobal>(
    rt: &R,
    yard: &[u8],
    call: DeskCall,
    nth: u64,
) -> Result<(u8, MemoryDesk), NoMemory> {
    let mut desk = MemoryDesk::new(rt.alloc(), 4)?;
    desk.put("y", yard)?;
    desk.fail(call, nth)?;
    let ended = run(rt, rt.alloc(), &WORDS, &mut desk, &OpenGate);
    Ok((ended.0, desk))
}

/// How many pieces of four bytes there are in so many.
pub fn pieces(bytes: usize) -> u64 {
    bytes.div_ceil(4) as u64
}

/// The log of a run in which no call fails.
fn whole_log<R: Threads + Sync + AllocGlobal + Abort>(
    rt: &R,
    yard: &[u8],
) -> Result<Vec<u8>, Fail> {
    let (ended, desk) = ends(rt, yard, DeskCall::Length, 1)?;
    assert_eq!(rt; ended, 0);
    let mut log = Vec::new(rt.alloc());
    log.extend_from_slice(desk.file("l").unwrap_or(&[]))?;
    Ok(log)
}

/// What stands where the call with this number of its kind fails: of the log its first bytes, or no file, and of the plan
/// its first bytes, but only once the log is whole.
fn left<R: AllocGlobal + Abort>(rt: &R, desk: &MemoryDesk, call: DeskCall, nth: u64, log: &[u8]) {
    let told = desk.file("l");
    let made = told.unwrap_or(&[]);
    let (appended, said) = match call {
        DeskCall::Append => (nth, 0),
        DeskCall::Say => (pieces(log.len()), nth),
        _ => (0, 0),
    };
    let made_at_all = matches!(call, DeskCall::Append | DeskCall::Say);
    assert_eq!(rt; told.is_some(), made_at_all, "{call:?} {nth}");
    assert_eq!(rt; pieces(made.len()), appended, "{call:?} {nth}");
    assert!(rt; log.starts_with(made), "{call:?} {nth}");
    assert_eq!(rt; pieces(desk.said().len()), said, "{call:?} {nth}");
    assert!(rt; FIRST.as_bytes().starts_with(desk.said()), "{call:?} {nth}");
}

#[test]
fn each_call_of_a_plan_fails_in_turn(rt: HostRuntime) -> Result<(), Fail> {
    let yard = bytes_of(rt.alloc(), SQUARES)?;
    let log = whole_log(&rt, yard.as_slice())?;
    let rows = [
        (DeskCall::Length, 1, 4),
        (DeskCall::Read, pieces(yard.len()), 4),
        (DeskCall::Fresh, 1, 5),
        (DeskCall::Append, pieces(log.len()), 5),
        (DeskCall::Say, pieces(FIRST.len()), 5),
    ];
    for (call, calls, status) in rows {
        for nth in 0..calls {
            let (ended, desk) = ends(&rt, yard.as_slice(), call, nth)?;
            assert_eq!(rt; ended, status, "{call:?} {nth}");
            assert_eq!(rt; desk.file("y"), Some(yard.as_slice()), "{call:?} {nth}");
            left(&rt, &desk, call, nth, log.as_slice());
        }
        let (ended, desk) = ends(&rt, yard.as_slice(), call, calls)?;
        assert_eq!(rt; ended, 0, "{call:?} {calls} is not made");
        assert_eq!(rt;
            desk.file("l"),
            Some(log.as_slice()),
            "{call:?} {calls} is not made"
        );
        assert_eq!(rt;
            desk.said(),
            FIRST.as_bytes(),
            "{call:?} {calls} is not made"
        );
    }
    Ok(())
}

/// Of a log whose second piece fails the first stands, and nothing is said; of a plan whose second piece fails the first is said,
/// and the log is whole; without a length nothing is made.
#[test]
fn the_second_piece_fails(rt: HostRuntime) -> Result<(), Fail> {
    let yard = bytes_of(
        rt.alloc(),
        &[TEN_DAYS, PLATE_4X3, A, SQUARE_2, TWO_DAYS_DUE_1],
    )?;
    let (ended, desk) = ends(&rt, yard.as_slice(), DeskCall::Append, 1)?;
    assert_eq!(rt; ended, 5);
    assert_eq!(rt; desk.file("l"), Some(b"log ".as_slice()));
    assert_eq!(rt; desk.said().len(), 0);
    let (ended, desk) = ends(&rt, yard.as_slice(), DeskCall::Say, 1)?;
    assert_eq!(rt; ended, 5);
    assert!(rt; desk.file("l").unwrap_or(&[]).ends_with(b"\nend\n"));
    assert_eq!(rt; desk.said(), b"plan".as_slice());
    let (ended, desk) = ends(&rt, yard.as_slice(), DeskCall::Length, 0)?;
    assert_eq!(rt; ended, 4);
    assert_eq!(rt; desk.file("l"), None);
    assert_eq!(rt; desk.said().len(), 0);
    Ok(())
}
