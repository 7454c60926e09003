//! The merge of the records of jobs, half by half, and the record that closes a log.
ghost use Rattle.std.specs.Prelude.{◌≡◌, ◌==◌, ◌^◌, ◌<◌, [], ◌∷◌, ◌++◌, if◌then◌else◌, IfOk};
ghost use Rattle.plan_rule.specs.Boxes.{exact};
ghost use Rattle.plan_rule.specs.Choices.{IsCode, count};
ghost use Rattle.plan_rule.specs.Fronts.{HasCodes};
ghost use Rattle.plan_rule.specs.Jobs.{IsJob};
ghost use Rattle.plan_rule.specs.RegionBoxes.{exact_literals};
ghost use Rattle.plan_rule.specs.Yards.{choices};
ghost use Rattle.log_merge.specs.Merging.{AreCodesOf, AreBoth, HasTwo, IsMergeable, IsMerged, IsRecordOf};

use code_table::Codes;
use plan_rule::{Job, Literal, PlanBox, Region, block_count, halves, region_of};
use refutation_log::{Cites, Log, Record};
use shape_exact::NoMemory;
use std::alloc::Global;

/// A job that was reported, and the number of the record that refutes its region.
#[derive(Clone, Copy, Debug, Drop)]
pub struct Leaf {
    pub job: Job,
    pub record: u64,
}

/// The number of a job's record, and the place of the next leaf.
#[derive(Clone, Copy, Debug, Drop)]
pub struct Merged {
    pub record: u64,
    pub next: usize,
}

/// Adds the literal of a block's code, where the block has other codes.
fn push_exact(codes: &Codes, list: &mut Vec<Literal>, block: u8, code: u32) -> Result<(), NoMemory>
    requires { IsCode (choices codes.now) block code }
    ensures { IfOk result (λ _. list.new.items ≡ list.old.items ++ (if count (choices codes.now) block == 1 then [] else exact block code ∷ [])) }
{
    if codes.count(block) == 1 {
        return Ok(());
    }
    list.push(Literal::exact(block, code))?;
    Ok(())
}

/// The box of the exact codes of the first blocks; a block with one code has no literal in it.
fn exact_side(alloc: Global, codes: &Codes, exact: &[u32]) -> Result<PlanBox, NoMemory>
    requires { AreCodesOf (choices codes.now) exact.now }
    ensures { IfOk result (λ side. side ≡ exact_literals (choices codes.now) 0 exact.now) }
{
    let _few = block_count(codes);
    let mut list = Vec::new(alloc);
    for (block, code) in exact.iter().enumerate() {
        push_exact(codes, &mut list, block as u8, *code)?;
    }
    Ok(PlanBox::from_list(list))
}

/// The citations of two records.
fn both(alloc: Global, one: u64, two: u64) -> Result<Cites, NoMemory>
    requires { (one < 10 ^ 18) × (two < 10 ^ 18) }
    ensures { IfOk result (AreBoth one two) }
{
    if one < two {
        Ok(Cites::new(alloc, &[one, two])?)
    } else if two < one {
        Ok(Cites::new(alloc, &[two, one])?)
    } else {
        Ok(Cites::new(alloc, &[one])?)
    }
}

/// The record of a halved job, which cites the records of its halves.
fn halved_record(
    alloc: Global,
    codes: &Codes,
    job: Job,
    first: u64,
    second: u64,
) -> Result<Record, NoMemory>
    requires job { IsJob job × (job.length < 32) }
    requires two { HasTwo (choices codes.now) job }
    requires numbers { (first < 10 ^ 18) × (second < 10 ^ 18) }
    ensures { IfOk result (IsRecordOf (choices codes.now) job first second) }
{
    let Region::Part { exact, lo, hi } = region_of(codes, job) else {
        unreachable!()
    };
    let block = exact.codes().len() as u8;
    let side = exact_side(alloc, codes, exact.codes())?;
    let cites = both(alloc, first, second)?;
    Ok(Record::Branch {
        block,
        lo,
        hi,
        side,
        cites,
    })
}

/// The record of a job, from the records of the leaves that make it up. The leaves stand in the order of their fronts.
pub fn merge(
    alloc: Global,
    codes: &Codes,
    job: Job,
    leaves: &[Leaf],
    at: usize,
    log: &mut Log,
) -> Result<Merged, NoMemory>
    requires codes { HasCodes (choices codes.now) }
    requires mergeable { IsMergeable (choices codes.now) job leaves.now at log.old }
    ensures merged { IfOk result (λ m. IsMerged (choices codes.now) job leaves.now log.old log.new m.record m.next) }
{
    if leaves[at].job.length <= job.length {
        return Ok(Merged {
            record: leaves[at].record,
            next: at + 1,
        });
    }
    let Some((low, high)) = halves(job) else {
        unreachable!()
    };
    let first = merge(alloc, codes, low, leaves, at, log)?;
    let second = merge(alloc, codes, high, leaves, first.next, log)?;
    let _few = log.records();
    let rec = halved_record(alloc, codes, job, first.record, second.record)?;
    let record = log.push(rec)?;
    Ok(Merged {
        record,
        next: second.next,
    })
}
