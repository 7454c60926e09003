//! Codes that a walk may pass at once: those that were found hindered beside exact blocks that a side has again.
ghost use Rattle.std.specs.Prelude.{◌≡◌, ◌<◌, ◌≤◌, All, Contains, length, true};
ghost use Rattle.shape_exact.specs.Yards.{PlainYard};
ghost use Rattle.plan_rule.specs.Choices.{blocks};
ghost use Rattle.plan_rule.specs.Yards.{choices};
ghost use Rattle.log_checker.specs.ExactBlocks.{IsStanding};
ghost use Rattle.log_checker.specs.Masks.{AreTold};
ghost use Rattle.log_checker.specs.PassedCodes.{ArePassed, AreHinderedTo};

use crate::exact::{Exact, are_in, has};
use crate::free::first_clear;
use crate::mask::Masks;
use arrayvec::ArrayVec;
use code_table::Codes;
use plan_rule::block_count;

/// Exact blocks that the last side and one before it had in common, and of each other block how many of its first codes
/// are all hindered beside these.
#[derive(Drop)]
pub(crate) struct Passed {
    exacts: ArrayVec<Exact, 32>,
    counts: [u32; 32],
    /// Whether the block's codes were walked.
    walked: [bool; 32],
    /// The exact blocks of the last side.
    last: ArrayVec<Exact, 32>,
}

/// The exact blocks of the list that others has too.
fn common(list: &[Exact], others: &[Exact]) -> ArrayVec<Exact, 32>
    requires { length list.now ≤ 32 }
    ensures { All (Contains others.now) result.items }
{
    let mut both = ArrayVec::new();
    for f in list {
        if has(others, *f) {
            both.push(*f);
        }
    }
    both
}

/// The same list.
fn copy_of(list: &[Exact]) -> ArrayVec<Exact, 32>
    requires { length list.now ≤ 32 }
{
    let mut copy = ArrayVec::new();
    for f in list {
        copy.push(*f);
    }
    copy
}

impl Passed {
    /// No code yet.
    pub(crate) fn new() -> Passed
        ensures { (yard : PlainYard) → ArePassed yard result }
    {
        Passed {
            exacts: ArrayVec::new(),
            counts: [0; 32],
            walked: [false; 32],
            last: ArrayVec::new(),
        }
    }

    /// Turns to the next side, by its exact blocks: what is kept goes with blocks that are all among these. It is given
    /// up where they are not, and where this side and the last one have more in common.
    pub(crate) fn turn_to(&mut self, exacts: &[Exact])
        requires few { length exacts.now ≤ 32 }
        ensures among { All (Contains exacts.now) self.new.exacts.items }
        ensures kept { (yard : PlainYard) → ArePassed yard self.old → ArePassed yard self.new }
    {
        let common = common(self.last.as_slice(), exacts);
        self.last = copy_of(exacts);
        if common.len() <= self.exacts.len() && are_in(self.exacts.as_slice(), exacts) {
            return;
        }
        self.exacts = common;
        self.counts = [0; 32];
        self.walked = [false; 32];
    }

    /// How many of the block's first codes may be passed beside a side that has the exact blocks. They are walked once, and
    /// no further than to the first that costs more than the limit.
    pub(crate) fn count(
        &mut self,
        codes: &Codes,
        masks: &mut Masks,
        exacts: &[Exact],
        block: u8,
        limit: u32,
    ) -> u32
        requires told { AreTold codes.now masks.old }
        requires kept { ArePassed codes.now self.old }
        requires among { All (Contains exacts.now) self.old.exacts.items }
        requires standing { All (IsStanding codes.now) exacts.now }
        requires block { block < blocks (choices codes.now) }
        ensures hindered { AreHinderedTo codes.now exacts.now block result }
        ensures among { All (Contains exacts.now) self.new.exacts.items }
        ensures kept { ArePassed codes.now self.new }
        ensures told { AreTold codes.now masks.new }
    {
        let _count = block_count(codes);
        let at = usize::from(block);
        if self.walked[at] {
            return self.counts[at];
        }
        let count = first_clear(codes, masks, self.exacts.as_slice(), block, limit);
        self.counts[at] = count;
        self.walked[at] = true;
        count
    }
}
