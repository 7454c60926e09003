//! The plans of a job: the codes that its bits fix, and the range of the next block's codes.
ghost use Rattle.std.specs.Prelude.{◌≡◌, ◌<◌, ◌≤◌, ◌++◌, ◌∷◌, [], length, IfSome};
ghost use Rattle.plan_rule.specs.Choices.{blocks};
ghost use Rattle.plan_rule.specs.Fronts.{HalvesLeft, HasCodes, IsRange, IsSettled, KeepsLeft};
ghost use Rattle.plan_rule.specs.Jobs.{IsJob};
ghost use Rattle.plan_rule.specs.Regions.{IsRegion};
ghost use Rattle.plan_rule.specs.Yards.{choices};

use crate::Job;
use crate::counts::{all_have_codes, count_of};
use arrayvec::ArrayVec;
use code_table::Codes;
use std::marker::Model;

/// The codes of the first blocks, `codes()[i]` of block `i`. Contracts see it as their list.
#[derive(Drop)]
pub struct Prefix {
    list: ArrayVec<u32, 32>,
}

impl Model for Prefix {
    ghost use Rattle.std.specs.Prelude.{List, ℕ};

    ghost Value = { List ℕ };

    ghost view = { λ s. s.list.items };
}

impl Prefix {
    /// The codes, in the order of their blocks.
    pub fn codes(&self) -> &[u32]
        ensures { result.now ≡ self.now }
    {
        self.list.as_slice()
    }

    /// The prefix with one code more.
    fn push(&mut self, code: u32)
        requires { length self.old < 32 }
        ensures { self.new ≡ self.old ++ code ∷ [] }
    {
        self.list.push(code);
    }
}

/// The plans whose path numbers begin with the bits of a job.
#[derive(Drop)]
pub enum Region {
    /// No list of codes lies in it.
    Empty,
    /// The codes of the first blocks, which the bits fix, and the range `lo..hi` of the next block, which has at least
    /// two codes; `lo = hi = 0` where all blocks are fixed.
    Part { exact: Prefix, lo: u32, hi: u32 },
}

/// What some bits leave: the codes of the first blocks, and a range of the next block's codes.
#[derive(Drop)]
pub(crate) struct Left {
    exact: Prefix,
    lo: u32,
    hi: u32,
}

/// Fixes each next block that has one code left.
fn settle(codes: &Codes, left: Left) -> Left
    requires few { blocks (choices codes.now) ≤ 32 }
    requires codes { HasCodes (choices codes.now) }
    requires range { IsRange (choices codes.now) left }
    ensures range { IsRange (choices codes.now) result }
    ensures settled { IsSettled result }
    ensures part { KeepsLeft (choices codes.now) left result }
{
    let mut made = left;
    while made.hi - made.lo == 1 {
        made.exact.push(made.lo);
        made.lo = 0;
        made.hi = count_of(codes, made.exact.codes().len());
    }
    made
}

/// What the next bit leaves: the upper half of the range where it is 1. Past the last block all bits are 0.
fn half_of(codes: &Codes, left: Left, upper: bool) -> Option<Left>
    requires few { blocks (choices codes.now) ≤ 32 }
    requires codes { HasCodes (choices codes.now) }
    requires range { IsRange (choices codes.now) left }
    requires settled { IsSettled left }
    ensures range { IfSome result (λ half. IsRange (choices codes.now) half × IsSettled half) }
    ensures part { HalvesLeft (choices codes.now) upper left result }
{
    let mut half = left;
    if half.hi == 0 {
        return if upper { None } else { Some(half) };
    }
    let middle = half.lo + (half.hi - half.lo) / 2;
    if upper {
        half.lo = middle;
    } else {
        half.hi = middle;
    }
    Some(settle(codes, half))
}

/// The plans of a job's region.
pub fn region_of(codes: &Codes, job: Job) -> Region
    requires { IsJob job }
    ensures { IsRegion (choices codes.now) job result }
{
    if !all_have_codes(codes) {
        return Region::Empty;
    }
    let whole = Left {
        exact: Prefix {
            list: ArrayVec::new(),
        },
        lo: 0,
        hi: count_of(codes, 0),
    };
    let mut left = settle(codes, whole);
    let mut rest = job.front;
    for bit in 0..job.length {
        let value = 2u32.pow(u32::from(31 - bit));
        let upper = rest >= value;
        if upper {
            rest -= value;
        }
        match half_of(codes, left, upper) {
            None => return Region::Empty,
            Some(half) => left = half,
        }
    }
    Region::Part {
        lo: left.lo,
        hi: left.hi,
        exact: left.exact,
    }
}
