//! A log that is taken into another one, each box once.
ghost use Rattle.std.specs.Prelude.{slice_index, ◌≡◌, ◌<◌, ◌∷◌, ◌++◌, [], ℕ, length, map, All, IfOk};
ghost use Rattle.refutation_log.specs.Logs.{CiteEarlier, cites_of};
ghost use Rattle.refutation_log.specs.declared.record.Record.{Record};
ghost use Rattle.log_parts.specs.United.{IsPlaced, IsRecitedBy, IsUnited};

use crate::Known;
use branch_kernel::{copy, write_branch, write_energy, write_fit};
use plan_rule::Literal;
use refutation_log::{Log, Record};
use shape_exact::NoMemory;
use std::alloc::Global;

/// The numbers that stand in the list at these places.
fn numbers_at(alloc: Global, places: &[u64], numbers: &[u64]) -> Result<Vec<u64>, NoMemory>
    requires { All (λ k. k < length numbers.now) places.now }
    ensures { IfOk result (λ v. v.items ≡ map (slice_index numbers.now) places.now) }
{
    let mut list = Vec::with_capacity(alloc, places.len())?;
    for place in places {
        list.push(numbers[*place as usize])?;
    }
    Ok(list)
}

/// Adds a copy of the record that cites the numbers in the places that it cites; answers its number.
fn add_copy(alloc: Global, entry: &Record, numbers: &[u64], log: &mut Log) -> Result<u64, NoMemory>
    requires earlier { All (λ k. k < length numbers.now) (cites_of entry.now) }
    requires within { (k : ℕ) → k < length numbers.now → slice_index numbers.now k < length log.old }
    ensures { IfOk result (λ n. (n ≡ length log.old) × ((e : Record) × (log.new ≡ log.old ++ e ∷ [])
        × IsRecitedBy numbers.now (length log.old) entry.now e)) }
{
    match entry {
        Record::Branch {
            block,
            lo,
            hi,
            side,
            cites,
        } => {
            let list = numbers_at(alloc, cites.list(), numbers)?;
            let range = Literal {
                block: *block,
                lo: *lo,
                hi: *hi,
            };
            let number = write_branch(log, range, copy(alloc, side)?, list)?;
            Ok(number)
        }
        Record::Fit { side } => write_fit(alloc, log, side),
        Record::Energy { from, to, side } => write_energy(alloc, log, *from, *to, side),
    }
}

/// The number of a record with this one's box: of one that stands in the log, or of a copy that is added.
fn place(
    alloc: Global,
    entry: &Record,
    numbers: &[u64],
    log: &mut Log,
    known: &mut Known,
) -> Result<u64, NoMemory>
    requires earlier { All (λ k. k < length numbers.now) (cites_of entry.now) }
    requires within { (k : ℕ) → k < length numbers.now → slice_index numbers.now k < length log.old }
    ensures { IfOk result (IsPlaced numbers.now log.old log.new entry.now) }
{
    if let Some(number) = known.find(log, entry) {
        return Ok(number);
    }
    let number = add_copy(alloc, entry, numbers, log)?;
    known.add(entry, number);
    Ok(number)
}

/// Adds the records of the other log in their order, but those whose box a record of this log is known to refute. Answers,
/// for each, the number of the record that has its box. `known` is of this log: what it knows of another one is of no use.
pub fn unite(
    alloc: Global,
    own: &Log,
    log: &mut Log,
    known: &mut Known,
) -> Result<Vec<u64>, NoMemory>
    requires { CiteEarlier own.now }
    ensures { IfOk result (λ v. IsUnited log.old own.now log.new v.items) }
{
    let mut numbers = Vec::with_capacity(alloc, own.records().len())?;
    for entry in own.records() {
        let number = place(alloc, entry, numbers.as_slice(), log, known)?;
        numbers.push(number)?;
    }
    Ok(numbers)
}
