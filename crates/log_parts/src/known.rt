//! The records of a log by their boxes.
ghost use Rattle.std.specs.Prelude.{◌≡◌, IfSome, IsTrue};
ghost use Rattle.log_parts.specs.United.{HasBoxAt, IsSameBox, range_of, side_of};

use plan_rule::{Literal, PlanBox};
use refutation_log::{Log, Record};
use std::alloc::Global;
use std::collections::HashMap;

/// The range of a branch.
fn range_of(entry: &Record) -> Option<Literal>
    ensures { result ≡ range_of entry.now }
{
    match entry {
        Record::Branch { block, lo, hi, .. } => Some(Literal {
            block: *block,
            lo: *lo,
            hi: *hi,
        }),
        Record::Fit { .. } => None,
        Record::Energy { .. } => None,
    }
}

/// The side of a record.
fn side_of(entry: &Record) -> &PlanBox
    ensures { result.now ≡ side_of entry.now }
{
    match entry {
        Record::Branch { side, .. } => side,
        Record::Fit { side } => side,
        Record::Energy { side, .. } => side,
    }
}

/// Whether the two records have one range and one side, and so one box.
fn same_box(one: &Record, other: &Record) -> bool
    ensures { IsTrue result → IsSameBox one.now other.now }
{
    range_of(one) == range_of(other) && side_of(one).literals() == side_of(other).literals()
}

/// The mark with one literal more.
fn mixed(mark: u64, literal: Literal) -> u64 {
    let codes = u64::from(literal.lo) << 32 | u64::from(literal.hi);
    let with_codes = (mark ^ codes).wrapping_mul(0x9E37_79B9_7F4A_7C15);
    (with_codes.rotate_left(23) ^ u64::from(literal.block)).wrapping_mul(0xD6E8_FEB8_6659_FD93)
}

/// A number that goes with the box of the record; other boxes seldom have the same.
fn mark_of(entry: &Record) -> u64 {
    let mut mark = 0;
    for literal in side_of(entry).literals() {
        mark = mixed(mark, *literal);
    }
    match range_of(entry) {
        Some(range) => mixed(!mark, range),
        None => mark,
    }
}

/// Which record of a log has which box. It may have forgotten some: then a box is not found.
#[derive(Drop)]
pub struct Known {
    numbers: HashMap<u64, u64>,
}

impl Known {
    /// Nothing known yet.
    pub fn new(alloc: Global) -> Known {
        Known {
            numbers: HashMap::new(alloc),
        }
    }

    /// The number of a record of the log with the box of this one, where it is known.
    pub(crate) fn find(&self, log: &Log, entry: &Record) -> Option<u64>
        ensures { IfSome result (HasBoxAt log.now entry.now) }
    {
        let number = *self.numbers.get(&mark_of(entry))?;
        let found = log.records().get(number as usize)?;
        if same_box(entry, found) {
            Some(number)
        } else {
            None
        }
    }

    /// Keeps the number of a record with this box. A refused growth is passed over.
    pub(crate) fn add(&mut self, entry: &Record, number: u64) {
        let _kept = self.numbers.insert(mark_of(entry), number);
    }
}
