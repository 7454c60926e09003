//! The search of a range of a block's codes beside a side.
ghost use Rattle.std.specs.Prelude.{◌≡◌, ◌+◌, ◌<◌, ◌⊎◌, true, length, IfOk};
ghost use Rattle.std.specs.Bool.{OnTrue};
ghost use Rattle.plan_rule.specs.Choices.{count};
ghost use Rattle.plan_rule.specs.Yards.{choices};
ghost use Rattle.branch_kernel.specs.States.{state};
ghost use Rattle.branch_kernel.specs.Boxes.{node_box};
ghost use Rattle.branch_kernel.specs.Nodes.{IsNode};
ghost use Rattle.branch_kernel.specs.Growth.{IsReady, Runs};
ghost use Rattle.branch_kernel.specs.Shows.{IsShownLast};

use crate::Hints;
use crate::cycle::{along, refute};
use crate::open::open_or;
use crate::own::own_code;
use branch_kernel::{Bars, Shown, count_of, with};
use code_table::Codes;
use nogood_store::Nogoods;
use plan_rule::{Job, Literal, Plan, PlanBox};
use refutation_log::Log;
use shape_exact::NoMemory;
use std::alloc::Global;
use tardiness_bounds::YardTables;

/// Whether the range has several of the block's codes, and not all of them.
fn is_cut(codes: &Codes, range: Literal) -> bool
    ensures more { OnTrue result (range.lo + 1 < range.hi) }
    ensures cut { OnTrue result ((0 < range.lo) ⊎ (range.hi < count (choices codes.now) range.block)) }
{
    if range.hi <= range.lo || range.hi - range.lo == 1 {
        return false;
    }
    range.lo > 0 || range.hi < count_of(codes, range.block)
}

/// Searches a range as one box, so that it need not be divided by its own block.
fn search_box<B: Bars>(
    alloc: Global,
    codes: &Codes,
    tables: &YardTables<'_>,
    job: Job,
    bars: &mut B,
    best: &mut Option<Plan>,
    log: &mut Log,
    store: &mut Nogoods,
    hints: &mut Hints,
    side: &PlanBox,
    range: Literal,
) -> Result<Shown, NoMemory>
    requires tables { tables.now.yard ≡ codes.now }
    requires served { B.yard bars.old ≡ codes.now }
    requires ready { IsReady (choices codes.now) job (state (B.bar bars.old) best.old log.old store.old) }
    requires node { IsNode (choices codes.now) job side.now range.block range.lo range.hi }
    requires more { range.lo + 1 < range.hi }
    requires cut { (0 < range.lo) ⊎ (range.hi < count (choices codes.now) range.block) }
    ensures served { B.yard bars.new ≡ codes.now }
    ensures home { B.home bars.new ≡ B.home bars.old }
    ensures runs { Runs (choices codes.now) job (state (B.bar bars.old) best.old log.old store.old)
        (state (B.bar bars.new) best.new log.new store.new) }
    ensures prefix { store.new.prefix ≡ store.old.prefix }
    ensures shown { IfOk result (IsShownLast (choices codes.now) (state (B.bar bars.old) best.old log.old store.old)
        (state (B.bar bars.new) best.new log.new store.new) (node_box (choices codes.now) side.now range.block range.lo range.hi)) }
{
    let part = with(alloc, side, range)?;
    let next = open_or(codes, &part, range.block);
    refute(
        alloc, codes, tables, job, bars, best, log, store, hints, &part, next,
    )
}

/// Searches a range of a block's codes beside a side, whose feasible plans are plans of the job's region: afterwards the
/// log's last record shows the box of the side and the range. Better plans are offered to the bar and become the best.
/// After want of memory the log, the store, the bar and the best are as sound as before.
///
/// A range without the best plan's code, which a job has cut off, is one box: its own block is branched on where that pays.
pub fn search_range<B: Bars>(
    alloc: Global,
    codes: &Codes,
    tables: &YardTables<'_>,
    job: Job,
    bars: &mut B,
    best: &mut Option<Plan>,
    log: &mut Log,
    store: &mut Nogoods,
    hints: &mut Hints,
    side: &PlanBox,
    range: Literal,
) -> Result<Shown, NoMemory>
    requires tables { tables.now.yard ≡ codes.now }
    requires served { B.yard bars.old ≡ codes.now }
    requires ready { IsReady (choices codes.now) job (state (B.bar bars.old) best.old log.old store.old) }
    requires node { IsNode (choices codes.now) job side.now range.block range.lo range.hi }
    ensures served { B.yard bars.new ≡ codes.now }
    ensures home { B.home bars.new ≡ B.home bars.old }
    ensures runs { Runs (choices codes.now) job (state (B.bar bars.old) best.old log.old store.old)
        (state (B.bar bars.new) best.new log.new store.new) }
    ensures prefix { store.new.prefix ≡ store.old.prefix }
    ensures shown { IfOk result (IsShownLast (choices codes.now) (state (B.bar bars.old) best.old log.old store.old)
        (state (B.bar bars.new) best.new log.new store.new) (node_box (choices codes.now) side.now range.block range.lo range.hi)) }
{
    hints.note_cut(range);
    let None = own_code(best, range) else {
        return along(
            alloc, codes, tables, job, bars, best, log, store, hints, side, range,
        );
    };
    if is_cut(codes, range) {
        return search_box(
            alloc, codes, tables, job, bars, best, log, store, hints, side, range,
        );
    }
    along(
        alloc, codes, tables, job, bars, best, log, store, hints, side, range,
    )
}
