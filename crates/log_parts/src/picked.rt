//! The numbers of the records on which a record rests.
ghost use Rattle.std.specs.Prelude.{◌≡◌, ◌<◌, ◌≤◌, length, IfOk, IfSome};
ghost use Rattle.refutation_log.specs.Logs.{CiteEarlier, cites_of};
ghost use Rattle.log_parts.specs.Picked.{IsAdded, IsClosedUnder, IsOneAdded};

use refutation_log::{Log, Record};
use shape_exact::NoMemory;
use std::alloc::Global;

/// A capsule holds no more records.
const MOST_RECORDS: usize = 64;

/// Whether the record cites more records than a capsule holds.
fn cites_many(entry: &Record) -> bool {
    match entry {
        Record::Branch { cites, .. } => cites.list().len() > MOST_RECORDS,
        Record::Fit { .. } => false,
        Record::Energy { .. } => false,
    }
}

/// Adds the number, where the list does not hold it.
fn add_one(picked: &mut Vec<u64>, number: u64) -> Result<(), NoMemory>
    ensures { IfOk result (λ _. IsOneAdded number picked.old.items picked.new.items) }
{
    if picked.as_slice().contains(&number) {
        return Ok(());
    }
    picked.push(number)?;
    Ok(())
}

/// Adds the numbers that the list does not hold.
fn add_all(picked: &mut Vec<u64>, numbers: &[u64]) -> Result<(), NoMemory>
    ensures { IfOk result (λ _. IsAdded numbers.now picked.old.items picked.new.items) }
{
    for number in numbers {
        add_one(picked, *number)?;
    }
    Ok(())
}

/// Adds the numbers that the record cites.
fn add_cites(picked: &mut Vec<u64>, entry: &Record) -> Result<(), NoMemory>
    ensures { IfOk result (λ _. IsAdded (cites_of entry.now) picked.old.items picked.new.items) }
{
    match entry {
        Record::Branch { cites, .. } => add_all(picked, cites.list()),
        Record::Fit { .. } => Ok(()),
        Record::Energy { .. } => Ok(()),
    }
}

/// The record's number and the numbers of all that it cites, followed down, as they are found; None where there are more
/// than a capsule holds.
pub(crate) fn closure_of(alloc: Global, log: &Log, last: u64) -> Result<Option<Vec<u64>>, NoMemory>
    requires within { last < length log.now }
    requires earlier { CiteEarlier log.now }
    ensures { IfOk result (λ found. IfSome found (λ picked. IsClosedUnder log.now last picked.items)) }
{
    let records = log.records();
    let mut picked = Vec::new(alloc);
    picked.push(last)?;
    for i in 0..MOST_RECORDS + 1 {
        if i == picked.len() {
            return Ok(Some(picked));
        }
        let entry = &records[picked[i] as usize];
        if cites_many(entry) {
            return Ok(None);
        }
        add_cites(&mut picked, entry)?;
    }
    Ok(None)
}
