//! What a run asks of its desk, and where a desk takes only a part of what is said.

use super::watched::{Call, WatchedDesk};
use super::yards::*;
use crate::commands::PLAN;
use scheduler_run::run;
use std::alloc::Global;
use std::test::Fail;
use std::thread::Threads;
use yard_io::{OpenGate, QuietDesk};

/// Bytes that no reader of TOML takes: three pieces of eight bytes.
const CUT_OFF: &str = "version = 1\ndays = ";

/// A desk with this file `y`, the files `p` and `l` of a plan and a log, in pieces of eight bytes. It adds so
/// many bytes to files, and says so many, and then fails.
fn watched(alloc: Global, parts: &[&str], room: usize, left: usize) -> Option<WatchedDesk> {
    let mut yard = Vec::new(alloc);
    for part in parts {
        yard.extend_from_slice(part.as_bytes()).ok()?;
    }
    let mut quiet = QuietDesk::new(alloc, 8).ok()?;
    quiet.put("y", yard.as_slice()).ok()?;
    quiet.put("p", b"no plan\n").ok()?;
    quiet.put("l", b"log 1\n").ok()?;
    Some(WatchedDesk::new(alloc, quiet, room, left))
}

#[test]
fn a_desk_that_takes_no_more_is_a_write_fault(rt: HostRuntime) -> Result<(), Fail> {
    let square: &[&str] = &[TEN_DAYS, PLATE_4X3, A, SQUARE_2, TWO_DAYS_DUE_1];
    let cases: [(&[&str], &[&str], usize, &str); 8] = [
        (PLAN, square, 0, ""),
        (PLAN, square, 4, "plan"),
        (PLAN, &[CUT_OFF], 0, ""),
        (PLAN, &[CUT_OFF], 4, "refu"),
        (&["check", "y", "p", "l"], square, 0, ""),
        (&["check", "y", "p", "l"], square, 13, "refused log 3"),
        (&[], square, 0, ""),
        (&[], square, 4, "usag"),
    ];
    for (words, parts, left, said) in cases {
        let Some(mut desk) = watched(rt.alloc(), parts, 1_000, left) else {
            assert!(rt; false, "the desk has its file");
            return Ok(());
        };
        let ended = run(&rt, rt.alloc(), words, &mut desk, &OpenGate);
        assert_eq!(rt; ended.0, 5, "after {said}");
        assert_eq!(rt; desk.said(), said.as_bytes(), "after {said}");
        assert_eq!(rt; desk.calls().last(), Some(&Call::Say), "after {said}");
    }
    Ok(())
}

#[test]
fn one_length_then_reads_then_what_is_said(rt: HostRuntime) -> Result<(), Fail> {
    let cases: [(&[&str], u8, &[Call]); 3] = [
        (
            PLAN,
            1,
            &[
                Call::Length,
                Call::Read,
                Call::Read,
                Call::Read,
                Call::Say,
                Call::Say,
                Call::Say,
            ],
        ),
        (
            &["check", "y", "p", "l"],
            1,
            &[
                Call::Length,
                Call::Read,
                Call::Read,
                Call::Read,
                Call::Length,
                Call::Read,
                Call::Length,
                Call::Read,
                Call::Say,
                Call::Say,
                Call::Say,
            ],
        ),
        (&["plan"], 2, &[Call::Say; 13]),
    ];
    for (words, status, calls) in cases {
        let Some(mut desk) = watched(rt.alloc(), &[CUT_OFF], 0, 1_000) else {
            assert!(rt; false, "the desk has its file");
            return Ok(());
        };
        let ended = run(&rt, rt.alloc(), words, &mut desk, &OpenGate);
        assert_eq!(rt; ended.0, status);
        assert_eq!(rt; desk.calls(), calls, "with status {status}");
    }
    Ok(())
}

/// The status where a desk adds only so many bytes to the log of one square, and whether just these bytes were added,
/// nothing was said, and no call came after.
fn cut_short<R: Threads + Sync + AllocGlobal>(
    rt: &R,
    room: usize,
    log: &str,
) -> Option<(u8, bool)> {
    let square = [TEN_DAYS, PLATE_4X3, A, SQUARE_2, TWO_DAYS_DUE_1];
    let mut desk = watched(rt.alloc(), &square, room, 1_000)?;
    let ended = run(rt, rt.alloc(), PLAN, &mut desk, &OpenGate);
    let is_last = matches!(desk.calls().last(), Some(Call::Append));
    let is_front = match desk.file("l") {
        Some(bytes) => bytes == log.as_bytes(),
        None => false,
    };
    Some((ended.0, is_last && is_front && desk.said().is_empty()))
}

#[test]
fn a_log_that_is_cut_short_says_nothing(rt: HostRuntime) {
    for (room, log) in [(0, ""), (4, "log "), (6, "log 1\n")] {
        assert_eq!(rt; cut_short(&rt, room, log), Some((5, true)), "after {log}");
    }
}
