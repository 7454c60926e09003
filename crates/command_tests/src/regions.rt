//! The regions of jobs on small yards, worked by hand.

use super::calling::codes_of_file;
use super::yards::*;
use code_table::Codes;
use plan_rule::{Job, Region, halves, region_of};
use std::alloc::Global;

/// The codes of the yard that these parts make.
pub fn codes_of(alloc: Global, parts: &[&str]) -> Option<Codes> {
    let mut text = Vec::new(alloc);
    for part in parts {
        text.extend_from_slice(part.as_bytes()).ok()?;
    }
    codes_of_file(alloc, text.as_slice()).ok()
}

/// Whether the job of this word leaves these codes of the first blocks and this range of the next; None where it leaves
/// no plan.
fn leaves(codes: &Codes, word: u64, wanted: Option<(&[u32], u32, u32)>) -> bool {
    let Some(job) = Job::of_word(word) else {
        return false;
    };
    match region_of(codes, job) {
        Region::Empty => wanted.is_none(),
        Region::Part { exact, lo, hi } => match wanted {
            Some((first, from, to)) => exact.codes() == first && lo == from && hi == to,
            None => false,
        },
    }
}

#[test]
fn regions_of_two_blocks(rt: HostRuntime) {
    let parts = [
        TEN_DAYS,
        PLATE_4X3,
        A,
        SQUARE_3,
        TWO_DAYS_DUE_1,
        B,
        SQUARE_3,
        TWO_DAYS_DUE_1,
    ];
    let rows: [(u64, Option<(&[u32], u32, u32)>); 5] = [
        (0, Some((&[], 0, 18))),
        (4, Some((&[0], 0, 18))),
        (8_589_934_597, Some((&[0], 9, 18))),
        (4_294_967_304, Some((&[0, 4], 0, 0))),
        (4_831_838_217, None),
    ];
    let Some(codes) = codes_of(rt.alloc(), &parts) else {
        assert!(rt; false, "the yard has codes");
        return;
    };
    for (word, wanted) in rows {
        assert!(rt; leaves(&codes, word, wanted), "at {word}");
    }
    match halves(Job::root()) {
        Some((lower, upper)) => {
            assert_eq!(rt; lower.word(), 1);
            assert_eq!(rt; upper.word(), 137_438_953_473);
        }
        None => assert!(rt; false, "the root has halves"),
    }
}

#[test]
fn a_block_without_codes_leaves_no_plan(rt: HostRuntime) {
    let parts = [TEN_DAYS, PLATE_1X3, A, SQUARE_2, TWO_DAYS_DUE_1];
    let Some(codes) = codes_of(rt.alloc(), &parts) else {
        assert!(rt; false, "the yard has codes");
        return;
    };
    assert!(rt; leaves(&codes, 0, None));
}

#[test]
fn a_block_of_one_code_has_no_bit(rt: HostRuntime) {
    let parts = [
        TEN_DAYS,
        PLATE_4X3,
        A,
        "shape = [[0,0],[4,0],[4,3],[0,3]]\nrelease = 8\n",
        TWO_DAYS_DUE_1,
        B,
        SQUARE_3,
        TWO_DAYS_DUE_1,
    ];
    let Some(codes) = codes_of(rt.alloc(), &parts) else {
        assert!(rt; false, "the yard has codes");
        return;
    };
    assert!(rt; leaves(&codes, 0, Some((&[0], 0, 18))));
}

/// Seven blocks of 32 codes want 35 bits: with all 32 bits told, eight plans are left, which share one path number.
#[test]
fn bits_run_out_before_the_last_block(rt: HostRuntime) {
    let parts = [
        "version = 1\ndays = 1\n[[plate]]\nname = \"P\"\nwidth = 8\nheight = 4\n",
        "[[block]]\nname = \"A\"\nshape = [[0,0],[1,0],[1,1],[0,1]]\nduration = 1\ndue = 0\n",
        "[[block]]\nname = \"B\"\nshape = [[0,0],[1,0],[1,1],[0,1]]\nduration = 1\ndue = 0\n",
        "[[block]]\nname = \"C\"\nshape = [[0,0],[1,0],[1,1],[0,1]]\nduration = 1\ndue = 0\n",
        "[[block]]\nname = \"D\"\nshape = [[0,0],[1,0],[1,1],[0,1]]\nduration = 1\ndue = 0\n",
        "[[block]]\nname = \"E\"\nshape = [[0,0],[1,0],[1,1],[0,1]]\nduration = 1\ndue = 0\n",
        "[[block]]\nname = \"F\"\nshape = [[0,0],[1,0],[1,1],[0,1]]\nduration = 1\ndue = 0\n",
        "[[block]]\nname = \"G\"\nshape = [[0,0],[1,0],[1,1],[0,1]]\nduration = 1\ndue = 0\n",
    ];
    let Some(codes) = codes_of(rt.alloc(), &parts) else {
        assert!(rt; false, "the yard has codes");
        return;
    };
    assert!(rt; leaves(&codes, 32, Some((&[0, 0, 0, 0, 0, 0], 0, 8))));
}
