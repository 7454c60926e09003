//! Records that are written, and boxes that are stored.
ghost use Rattle.std.specs.Prelude.{◌≡◌, ◌<◌, ◌^◌, ◌↔◌, ℕ, All, Contains, length, true, false};
ghost use Rattle.plan_rule.specs.Boxes.{AreAmong};
ghost use Rattle.plan_rule.specs.Yards.{choices};
ghost use Rattle.refutation_log.specs.Citations.{AreCites};
ghost use Rattle.refutation_log.specs.Steps.{result_of};
ghost use Rattle.refutation_log.specs.declared.record.Record.TheVariants.{Fit, Energy};
ghost use Rattle.branch_kernel.specs.Marks.{LeavesUnnamed, MarksAll, has};
ghost use Rattle.branch_kernel.specs.Stored.{IsKept};
ghost use Rattle.branch_kernel.specs.Written.{IsWritten, IsBranchWritten};

use crate::{Blocks, Shown, copy};
use code_table::Codes;
use nogood_store::Nogoods;
use plan_rule::{Literal, PlanBox};
use refutation_log::{Cites, Log, Record};
use shape_exact::NoMemory;
use std::alloc::Global;

/// Adds the record that the fit of the side refutes it, and answers its number. Want of memory leaves the log as it
/// was.
pub fn write_fit(alloc: Global, log: &mut Log, side: &PlanBox) -> Result<u64, NoMemory>
    ensures { IsWritten result log.old log.new (Fit side.now) }
{
    let side = copy(alloc, side)?;
    log.push(Record::Fit { side })
}

/// Adds the record that the energy of the side, in the window from one day to another, both included, refutes it, and
/// answers its number. Want of memory leaves the log as it was.
pub fn write_energy(
    alloc: Global,
    log: &mut Log,
    from: u16,
    to: u16,
    side: &PlanBox,
) -> Result<u64, NoMemory>
    ensures { IsWritten result log.old log.new (Energy from to side.now) }
{
    let side = copy(alloc, side)?;
    log.push(Record::Energy { from, to, side })
}

/// The numbers in ascending order, each once.
fn in_order(numbers: Vec<u64>) -> Vec<u64>
    requires few { All (λ k. k < 10 ^ 18) numbers.items }
    ensures cites { AreCites result.items }
    ensures same { (k : ℕ) → Contains result.items k ↔ Contains numbers.items k }
{
    let mut list = numbers;
    list.sort_unstable();
    list.dedup();
    list
}

/// Adds the record that the codes of a range are covered beside the side, with each number cited once and in ascending
/// order, and answers its number. Want of memory leaves the log as it was.
pub fn write_branch(
    log: &mut Log,
    range: Literal,
    side: PlanBox,
    cites: Vec<u64>,
) -> Result<u64, NoMemory>
    requires { All (λ k. k < length log.old) cites.items }
    ensures { IsBranchWritten result log.old log.new range side cites.items }
{
    let _few = log.records();
    let cites = Cites::from_list(in_order(cites));
    log.push(Record::Branch {
        block: range.block,
        lo: range.lo,
        hi: range.hi,
        side,
        cites,
    })
}

/// A store holds no more boxes.
const MOST_BOXES: u32 = 65_536;

/// A stored box has no more literals: one of more is seldom met again.
const MOST_LITERALS: usize = 4;

/// Stores the box of a record with its number, where no tie was used, the box has at most four literals and fewer than
/// 65,536 boxes stand. A refused growth is passed over: the box is then not found again.
pub fn keep_box(store: &mut Nogoods, part: PlanBox, shown: Shown)
    requires { AreAmong 32 part }
    ensures kept { IsKept shown.tie store.old.nogoods store.new.nogoods (record { part = part; tag = shown.number }) }
    ensures prefix { store.new.prefix ≡ store.old.prefix }
{
    if shown.tie || part.literals().len() > MOST_LITERALS || store.len() >= MOST_BOXES {
        return;
    }
    let _kept = store.add(part, shown.number);
}

/// Marks the blocks of the box that the record refutes.
pub fn add_result(codes: &Codes, entry: &Record, needs: &mut Blocks)
    ensures keeps { (x : ℕ) → has needs.old x ≡ true → has needs.new x ≡ true }
    ensures added { MarksAll (has needs.new) (result_of (choices codes.now) entry.now) }
{
    match entry {
        Record::Branch { block, side, .. } => {
            needs.add_all(side);
            needs.add(*block);
        }
        Record::Fit { side } => needs.add_all(side),
        Record::Energy { side, .. } => needs.add_all(side),
    }
}

/// Whether the box that the record refutes may have a literal on the block; false only where it has none.
pub fn names(codes: &Codes, entry: &Record, block: u8) -> bool
    ensures { result ≡ false → LeavesUnnamed (choices codes.now) entry.now block }
{
    let mut marks = Blocks::none();
    add_result(codes, entry, &mut marks);
    block >= 32 || marks.has(block)
}
