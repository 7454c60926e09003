//! Logs: records in a list.
ghost use Rattle.std.specs.Prelude.{◌≡◌, ◌+◌, ◌<◌, ◌≤◌, ◌^◌, ◌++◌, ◌∷◌, [], All, length, map, IfOk, OnErr};
ghost use Rattle.refutation_log.specs.Citations.{AreCites};
ghost use Rattle.refutation_log.specs.Logs.{raised, appended, CiteEarlier, KeepsSteps, cites_of};

use crate::{Cites, Record};
use plan_rule::PlanBox;
use shape_exact::NoMemory;
use std::alloc::Global;
use std::marker::Model;

/// No memory holds so many records.
const MOST_RECORDS: usize = 1_000_000_000_000_000_000;

/// A log: its records, numbered from 0. Contracts see it as the list of its records.
#[derive(Drop)]
pub struct Log {
    list: Vec<Record>,
}

impl Model for Log {
    ghost use Rattle.std.specs.Prelude.{List, ◌<◌, ◌^◌, length};
    ghost use Rattle.refutation_log.specs.declared.record.Record.{Record};

    ghost Value = { List Record };

    ghost view = { λ s. s.list.items };

    ghost invariant = { λ s. length s.list.items < 10 ^ 18 };
}

/// The citations raised by a number.
fn raised_cites(alloc: Global, cites: &Cites, by: u64) -> Result<Cites, NoMemory>
    requires { All (λ k. k + by < 10 ^ 18) cites.now }
    ensures { IfOk result (λ c. c ≡ map (λ k. k + by) cites.now) }
{
    let mut list = Vec::with_capacity(alloc, cites.list().len())?;
    for cite in cites.list() {
        list.push(*cite + by)?;
    }
    Ok(Cites::from_list(list))
}

/// A copy of the record, its citations raised by a number.
fn raised_copy(alloc: Global, entry: &Record, by: u64) -> Result<Record, NoMemory>
    requires { All (λ k. k + by < 10 ^ 18) (cites_of entry.now) }
    ensures { IfOk result (λ r. r ≡ raised by entry.now) }
{
    match entry {
        Record::Branch {
            block,
            lo,
            hi,
            side,
            cites,
        } => Ok(Record::Branch {
            block: *block,
            lo: *lo,
            hi: *hi,
            side: PlanBox::new(alloc, side.literals())?,
            cites: raised_cites(alloc, cites, by)?,
        }),
        Record::Fit { side } => Ok(Record::Fit {
            side: PlanBox::new(alloc, side.literals())?,
        }),
        Record::Energy { from, to, side } => Ok(Record::Energy {
            from: *from,
            to: *to,
            side: PlanBox::new(alloc, side.literals())?,
        }),
    }
}

/// Copies of the records, their citations raised by a number.
fn raised_copies(alloc: Global, records: &[Record], by: u64) -> Result<Vec<Record>, NoMemory>
    requires { All (λ r. All (λ k. k + by < 10 ^ 18) (cites_of r)) records.now }
    ensures { IfOk result (λ v. v.items ≡ map (raised by) records.now) }
{
    let mut copies = Vec::with_capacity(alloc, records.len())?;
    for entry in records {
        copies.push(raised_copy(alloc, entry, by)?)?;
    }
    Ok(copies)
}

impl Log {
    /// The log of no record.
    pub fn new(alloc: Global) -> Log
        ensures { result ≡ [] }
    {
        Log {
            list: Vec::new(alloc),
        }
    }

    /// The log of these records, without a copy; want of memory where there are 10^18 or more.
    pub(crate) fn from_list(list: Vec<Record>) -> Result<Log, NoMemory>
        ensures { IfOk result (λ log. log ≡ list.items) }
    {
        if list.len() >= MOST_RECORDS {
            return Err(NoMemory);
        }
        Ok(Log { list })
    }

    /// Adds the record last and answers its number. A refusal drops the record and leaves the log as it was.
    pub fn push(&mut self, rec: Record) -> Result<u64, NoMemory>
        ensures number { IfOk result (λ n. n ≡ length self.old) }
        ensures ok { IfOk result (λ _. self.new ≡ self.old ++ rec ∷ []) }
        ensures err { OnErr result (self.new ≡ self.old) }
    {
        let number = self.list.len();
        if number + 1 >= MOST_RECORDS {
            return Err(NoMemory);
        }
        self.list.push(rec)?;
        Ok(number as u64)
    }

    /// Adds copies of the other log's records, whose citations are raised by the old length, and answers that length. A
    /// refusal leaves the log as it was.
    pub fn append(&mut self, alloc: Global, other: &Log) -> Result<u64, NoMemory>
        requires { CiteEarlier other.now }
        ensures number { IfOk result (λ n. n ≡ length self.old) }
        ensures ok { IfOk result (λ _. self.new ≡ appended self.old other.now) }
        ensures steps { IfOk result (λ _. KeepsSteps self.old other.now self.new) }
        ensures err { OnErr result (self.new ≡ self.old) }
    {
        let number = self.list.len();
        if number + other.list.len() >= MOST_RECORDS {
            return Err(NoMemory);
        }
        let mut copies = raised_copies(alloc, other.list.as_slice(), number as u64)?;
        self.list.append(&mut copies)?;
        Ok(number as u64)
    }

    /// The records, in the order of their numbers.
    pub fn records(&self) -> &[Record]
        ensures value { result.now ≡ self.now }
        ensures few { length result.now < 10 ^ 18 }
    {
        self.list.as_slice()
    }
}
