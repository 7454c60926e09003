//! A record and what it rests on, in a capsule.
ghost use Rattle.std.specs.Prelude.{slice_index, slice_get, ◌≡◌, ◌<◌, ◌≤◌, ◌∷◌, ◌++◌, [], ℕ, Some, length, All, Contains, IfOk, IfSome};
ghost use Rattle.refutation_log.specs.Logs.{CiteEarlier, cites_of};
ghost use Rattle.refutation_log.specs.declared.record.Record.{Record};
ghost use Rattle.log_parts.specs.Picked.{AreCopied, AreFoundIn, IsClosedUnder, IsDerivation, IsRenumbered, Rises};

use crate::picked::closure_of;
use branch_kernel::{copy, write_branch, write_energy, write_fit};
use plan_rule::Literal;
use refutation_log::{Capsule, Log, Record};
use shape_exact::NoMemory;
use std::alloc::Global;

/// The places at which the numbers stand in the list.
fn places_of(alloc: Global, numbers: &[u64], picked: &[u64]) -> Result<Vec<u64>, NoMemory>
    requires rises { Rises picked.now }
    requires found { All (Contains picked.now) numbers.now }
    ensures { IfOk result (λ places. AreFoundIn picked.now numbers.now places.items) }
{
    let mut places = Vec::new(alloc);
    for number in numbers {
        let Ok(place) = picked.binary_search(number) else {
            unreachable!()
        };
        places.push(place as u64)?;
    }
    Ok(places)
}

/// Adds a copy of the record that cites the places of what it cites.
fn copy_onto(alloc: Global, entry: &Record, picked: &[u64], part: &mut Log) -> Result<(), NoMemory>
    requires rises { Rises picked.now }
    requires found { All (Contains picked.now) (cites_of entry.now) }
    requires earlier { (j : ℕ) → j < length picked.now → Contains (cites_of entry.now) (slice_index picked.now j)
        → j < length part.old }
    ensures { IfOk result (λ _. (r : Record) × (part.new ≡ part.old ++ r ∷ [])
        × IsRenumbered picked.now (length part.old) entry.now r) }
{
    match entry {
        Record::Branch {
            block,
            lo,
            hi,
            side,
            cites,
        } => {
            let places = places_of(alloc, cites.list(), picked)?;
            let range = Literal {
                block: *block,
                lo: *lo,
                hi: *hi,
            };
            write_branch(part, range, copy(alloc, side)?, places)?;
        }
        Record::Fit { side } => {
            write_fit(alloc, part, side)?;
        }
        Record::Energy { from, to, side } => {
            write_energy(alloc, part, *from, *to, side)?;
        }
    }
    Ok(())
}

/// Copies of the records with these numbers, which cite one another by their places.
fn copies(alloc: Global, log: &Log, last: u64, picked: &[u64]) -> Result<Log, NoMemory>
    requires within { last < length log.now }
    requires rises { Rises picked.now }
    requires earlier { CiteEarlier log.now }
    requires closed { IsClosedUnder log.now last picked.now }
    ensures { IfOk result (λ part. AreCopied log.now picked.now part (length picked.now)) }
{
    let records = log.records();
    let mut part = Log::new(alloc);
    for i in 0..picked.len() {
        copy_onto(alloc, &records[picked[i] as usize], picked, &mut part)?;
    }
    Ok(part)
}

/// The record with this number and every record that it cites, followed down, in a capsule with this bar: in their order,
/// with their citations numbered anew. None where a capsule does not hold them.
pub fn derivation(
    alloc: Global,
    log: &Log,
    last: u64,
    bar: u64,
) -> Result<Option<Capsule>, NoMemory>
    requires within { last < length log.now }
    requires earlier { CiteEarlier log.now }
    ensures { IfOk result (λ found. IfSome found (λ capsule. (capsule.bar ≡ bar)
        × IsDerivation log.now last capsule.log)) }
{
    let Some(mut picked) = closure_of(alloc, log, last)? else {
        return Ok(None);
    };
    picked.sort_unstable();
    let part = copies(alloc, log, last, picked.as_slice())?;
    match Capsule::new(bar, part) {
        Ok(capsule) => Ok(Some(capsule)),
        Err(_) => Ok(None),
    }
}
