//! Capsules: small logs that workers hand to one another.
ghost use Rattle.std.specs.Prelude.{◌≡◌, ◌+◌, ◌<◌, ◌≤◌, ◌↔◌, IfOk, IfErr, IsOk, IsTrue, length};
ghost use Rattle.refutation_log.specs.Logs.{IsSmall, cites_of, citations};

use crate::{Log, Record};
use std::marker::Model;

/// A small log and a bar: the greatest key for which its records are known to be steps.
#[derive(Drop)]
pub struct Capsule {
    bar: u64,
    log: Log,
}

impl Model for Capsule {
    ghost use Rattle.refutation_log.specs.Logs.{PlainCapsule, IsSmall};

    ghost Value = { PlainCapsule };

    ghost view = { λ s. record { bar = s.bar; log = s.log } };

    ghost invariant = { λ s. IsSmall s.log };
}

/// How many records the record cites.
fn citations_of(entry: &Record) -> usize
    ensures { result ≡ length (cites_of entry.now) }
{
    match entry {
        Record::Branch { cites, .. } => cites.list().len(),
        Record::Fit { .. } => 0,
        Record::Energy { .. } => 0,
    }
}

/// Whether the records have at most 1,024 citations in all.
fn cite_few(records: &[Record]) -> bool
    ensures { IsTrue result ↔ (citations records.now ≤ 1024) }
{
    let mut left: usize = 1024;
    for entry in records {
        let count = citations_of(entry);
        if count > left {
            return false;
        }
        left -= count;
    }
    true
}

impl Capsule {
    /// The log in a capsule with this bar; handed back exactly where it has no record, more than 64 records, or more
    /// than 1,024 citations in all.
    pub fn new(bar: u64, log: Log) -> Result<Capsule, Log>
        ensures fits { IsOk result ↔ IsSmall log }
        ensures value { IfOk result (λ c. c ≡ record { bar = bar; log = log }) }
        ensures back { IfErr result (λ l. l ≡ log) }
    {
        let count = log.records().len();
        if 1 <= count && count <= 64 && cite_few(log.records()) {
            Ok(Capsule { bar, log })
        } else {
            Err(log)
        }
    }

    /// The bar.
    pub fn bar(&self) -> u64
        ensures { result ≡ self.now.bar }
    {
        self.bar
    }

    /// The log, of 1 to 64 records and at most 1,024 citations.
    pub fn log(&self) -> &Log
        ensures value { result.now ≡ self.now.log }
        ensures small { IsSmall result.now }
    {
        &self.log
    }
}
