//! The cycle of the search: a box is refuted, a range is divided or walked along the best plan, a code is settled.
ghost use Rattle.std.specs.Prelude.{◌≡◌, ◌+◌, ◌<◌, ◌≤◌, ◌/◌, ◌^◌, ◌⊎◌, ℕ, None, Some, true, length, IfOk, option_to_list};
ghost use Rattle.plan_rule.specs.Choices.{blocks, count};
ghost use Rattle.plan_rule.specs.Boxes.{exact_code};
ghost use Rattle.plan_rule.specs.Yards.{choices};
ghost use Rattle.branch_kernel.specs.States.{state};
ghost use Rattle.branch_kernel.specs.Boxes.{node_box};
ghost use Rattle.branch_kernel.specs.Marks.{has};
ghost use Rattle.branch_kernel.specs.Nodes.{IsNode, IsOpenBox};
ghost use Rattle.branch_kernel.specs.Unbeaten.{IsAskedSide};
ghost use Rattle.branch_kernel.specs.Growth.{IsReady, Runs};
ghost use Rattle.branch_kernel.specs.Shows.{IsShownLast};
ghost use Rattle.branch_kernel.specs.Covers.{CoversCode, CoversRange};
ghost use Rattle.branch_search.specs.Jumping.{Jumps};
ghost use Rattle.branch_search.specs.Segments.{IsSegment};
ghost use Rattle.branch_search.specs.Views.{IsView};

use crate::Hints;
use crate::choose::choose;
use crate::covering::cover_known;
use crate::fits::fitted;
use crate::open::{first_open, open_or};
use crate::order::order_of;
use crate::own::{Settled, cites_of, note, own_code};
use crate::view::{SideView, view_of};
use branch_kernel::{
    Bars, Blocks, Coverage, Covered, Shown, add_result, close, cover_by_plan, cover_by_record,
    names, range_on, with, without,
};
use code_table::Codes;
use nogood_store::Nogoods;
use plan_rule::{Job, Literal, Plan, PlanBox};
use refutation_log::Log;
use shape_exact::NoMemory;
use std::alloc::Global;
use tardiness_bounds::YardTables;

/// Settles one code of a block beside a side, and marks the blocks whose literals were needed.
#[cycle(refute)]
fn settle<B: Bars>(
    alloc: Global,
    codes: &Codes,
    tables: &YardTables<'_>,
    job: Job,
    bars: &mut B,
    best: &mut Option<Plan>,
    log: &mut Log,
    store: &mut Nogoods,
    hints: &mut Hints,
    side: &PlanBox,
    block: u8,
    code: u32,
    needs: &mut Blocks,
    view: &mut SideView<'_>,
    walk: bool,
) -> Result<Settled, NoMemory>
    requires tables { tables.now.yard ≡ codes.now }
    requires served { B.yard bars.old ≡ codes.now }
    requires ready { IsReady (choices codes.now) job (state (B.bar bars.old) best.old log.old store.old) }
    requires node { IsNode (choices codes.now) job side.now block code (code + 1) }
    requires view { IsView codes.now side.now (has needs.old) block view.old }
    ensures served { B.yard bars.new ≡ codes.now }
    ensures home { B.home bars.new ≡ B.home bars.old }
    ensures runs { Runs (choices codes.now) job (state (B.bar bars.old) best.old log.old store.old)
        (state (B.bar bars.new) best.new log.new store.new) }
    ensures prefix { store.new.prefix ≡ store.old.prefix }
    ensures needs { (x : ℕ) → has needs.old x ≡ true → has needs.new x ≡ true }
    ensures view { IsView codes.now side.now (has needs.new) block view.new }
    ensures covered { IfOk result (λ r. CoversCode (choices codes.now) (state (B.bar bars.old) best.old log.old store.old)
        (state (B.bar bars.new) best.new log.new store.new) side.now (has needs.new) block code r.covered) }
    ensures jumped { IfOk result (Jumps (choices codes.now) (state (B.bar bars.old) best.old log.old store.old)
        (state (B.bar bars.new) best.new log.new store.new) side.now) }
{
    let child = match cover_known(
        alloc, codes, job, bars, best, log, store, hints, side, block, code, needs, view,
    )? {
        Coverage::Done(covered) => {
            return Ok(Settled {
                covered,
                jumps: false,
            });
        }
        Coverage::Open(child) => child,
    };
    let Some(next) = first_open(codes, &child) else {
        let covered = cover_by_plan(
            alloc, codes, job, bars, best, log, store, side, block, code, &child, needs,
        )?;
        return Ok(Settled {
            covered,
            jumps: false,
        });
    };
    let shown = deeper(
        alloc, codes, tables, job, bars, best, log, store, hints, &child, next, walk,
    )?;
    let named = names(codes, &log.records()[shown.number as usize], block);
    let covered = cover_by_record(codes, job, log, side, block, code, shown, needs);
    Ok(Settled {
        covered,
        jumps: !named,
    })
}

/// Settles the segments of a range one after another, and makes the record that says so.
#[cycle(refute)]
fn divide<B: Bars>(
    alloc: Global,
    codes: &Codes,
    tables: &YardTables<'_>,
    job: Job,
    bars: &mut B,
    best: &mut Option<Plan>,
    log: &mut Log,
    store: &mut Nogoods,
    hints: &mut Hints,
    side: &PlanBox,
    range: Literal,
) -> Result<Shown, NoMemory>
    requires tables { tables.now.yard ≡ codes.now }
    requires served { B.yard bars.old ≡ codes.now }
    requires ready { IsReady (choices codes.now) job (state (B.bar bars.old) best.old log.old store.old) }
    requires node { IsNode (choices codes.now) job side.now range.block range.lo range.hi }
    requires asked { IsAskedSide (choices codes.now) side.now (B.bar bars.old / 2 ^ 32) }
    ensures served { B.yard bars.new ≡ codes.now }
    ensures home { B.home bars.new ≡ B.home bars.old }
    ensures runs { Runs (choices codes.now) job (state (B.bar bars.old) best.old log.old store.old)
        (state (B.bar bars.new) best.new log.new store.new) }
    ensures prefix { store.new.prefix ≡ store.old.prefix }
    ensures shown { IfOk result (IsShownLast (choices codes.now) (state (B.bar bars.old) best.old log.old store.old)
        (state (B.bar bars.new) best.new log.new store.new) (node_box (choices codes.now) side.now range.block range.lo range.hi)) }
{
    hints.note_rank(range.block, side.literals().len());
    let mut view = view_of(alloc, &*tables, side)?;
    let order = order_of(alloc, codes, &view.front, hints, range)?;
    let mut cites = Vec::new(alloc);
    let mut needs = Blocks::none();
    let mut tie = false;
    for at in 0..order.list.len() {
        let segment = order.list[at];
        hints.note_code(at < order.first, range.block, segment.lo, &needs);
        let settled = settle_segment(
            alloc, codes, tables, job, bars, best, log, store, hints, side, range, segment,
            &mut needs, &mut view,
        )?;
        let covered = settled.covered;
        if settled.jumps {
            if let Some(number) = covered.cite {
                return Ok(Shown {
                    number,
                    tie: covered.tie,
                });
            }
        }
        note(&mut cites, covered.cite)?;
        tie |= covered.tie;
    }
    hints.leave_range();
    close(alloc, codes, log, store, side, range, &needs, cites, tie)
}

/// Refutes the box by its bounds, or by its codes of a block. Answers the record whose result contains it.
#[cycle(refute)]
pub(crate) fn refute<B: Bars>(
    alloc: Global,
    codes: &Codes,
    tables: &YardTables<'_>,
    job: Job,
    bars: &mut B,
    best: &mut Option<Plan>,
    log: &mut Log,
    store: &mut Nogoods,
    hints: &mut Hints,
    part: &PlanBox,
    block: u8,
) -> Result<Shown, NoMemory>
    requires tables { tables.now.yard ≡ codes.now }
    requires served { B.yard bars.old ≡ codes.now }
    requires ready { IsReady (choices codes.now) job (state (B.bar bars.old) best.old log.old store.old) }
    requires open { IsOpenBox (choices codes.now) job part.now }
    requires block { block < blocks (choices codes.now) }
    requires unset { exact_code part.now block ≡ None }
    ensures served { B.yard bars.new ≡ codes.now }
    ensures home { B.home bars.new ≡ B.home bars.old }
    ensures runs { Runs (choices codes.now) job (state (B.bar bars.old) best.old log.old store.old)
        (state (B.bar bars.new) best.new log.new store.new) }
    ensures prefix { store.new.prefix ≡ store.old.prefix }
    ensures shown { IfOk result (IsShownLast (choices codes.now) (state (B.bar bars.old) best.old log.old store.old)
        (state (B.bar bars.new) best.new log.new store.new) part.now) }
{
    hints.enter();
    if let Some(shown) = fitted(
        alloc, codes, tables, job, bars, best, log, store, hints, part,
    )? {
        return Ok(shown);
    }
    let chosen = choose(alloc, codes, tables, hints, part, block)?;
    let range = range_on(codes, part, chosen);
    let side = without(alloc, part, chosen)?;
    divide(
        alloc, codes, tables, job, bars, best, log, store, hints, &side, range,
    )
}

/// Goes on below a box: along the best plan, or as the search chooses.
#[cycle(refute)]
fn deeper<B: Bars>(
    alloc: Global,
    codes: &Codes,
    tables: &YardTables<'_>,
    job: Job,
    bars: &mut B,
    best: &mut Option<Plan>,
    log: &mut Log,
    store: &mut Nogoods,
    hints: &mut Hints,
    part: &PlanBox,
    block: u8,
    walk: bool,
) -> Result<Shown, NoMemory>
    requires tables { tables.now.yard ≡ codes.now }
    requires served { B.yard bars.old ≡ codes.now }
    requires ready { IsReady (choices codes.now) job (state (B.bar bars.old) best.old log.old store.old) }
    requires open { IsOpenBox (choices codes.now) job part.now }
    requires block { block < blocks (choices codes.now) }
    requires unset { exact_code part.now block ≡ None }
    ensures served { B.yard bars.new ≡ codes.now }
    ensures home { B.home bars.new ≡ B.home bars.old }
    ensures runs { Runs (choices codes.now) job (state (B.bar bars.old) best.old log.old store.old)
        (state (B.bar bars.new) best.new log.new store.new) }
    ensures prefix { store.new.prefix ≡ store.old.prefix }
    ensures shown { IfOk result (IsShownLast (choices codes.now) (state (B.bar bars.old) best.old log.old store.old)
        (state (B.bar bars.new) best.new log.new store.new) part.now) }
{
    if !walk {
        return refute(
            alloc, codes, tables, job, bars, best, log, store, hints, part, block,
        );
    }
    let range = range_on(codes, part, block);
    let side = without(alloc, part, block)?;
    along(
        alloc, codes, tables, job, bars, best, log, store, hints, &side, range,
    )
}

/// Settles a segment of a range of a block beside a side: by one record where it has several codes.
#[cycle(refute)]
fn settle_segment<B: Bars>(
    alloc: Global,
    codes: &Codes,
    tables: &YardTables<'_>,
    job: Job,
    bars: &mut B,
    best: &mut Option<Plan>,
    log: &mut Log,
    store: &mut Nogoods,
    hints: &mut Hints,
    side: &PlanBox,
    range: Literal,
    segment: Literal,
    needs: &mut Blocks,
    view: &mut SideView<'_>,
) -> Result<Settled, NoMemory>
    requires tables { tables.now.yard ≡ codes.now }
    requires served { B.yard bars.old ≡ codes.now }
    requires ready { IsReady (choices codes.now) job (state (B.bar bars.old) best.old log.old store.old) }
    requires node { IsNode (choices codes.now) job side.now range.block range.lo range.hi }
    requires segment { IsSegment range segment }
    requires view { IsView codes.now side.now (has needs.old) range.block view.old }
    ensures served { B.yard bars.new ≡ codes.now }
    ensures home { B.home bars.new ≡ B.home bars.old }
    ensures runs { Runs (choices codes.now) job (state (B.bar bars.old) best.old log.old store.old)
        (state (B.bar bars.new) best.new log.new store.new) }
    ensures prefix { store.new.prefix ≡ store.old.prefix }
    ensures needs { (x : ℕ) → has needs.old x ≡ true → has needs.new x ≡ true }
    ensures view { IsView codes.now side.now (has needs.new) range.block view.new }
    ensures covered { IfOk result (λ r. CoversRange (choices codes.now) (state (B.bar bars.old) best.old log.old store.old)
        (state (B.bar bars.new) best.new log.new store.new) side.now (has needs.new) segment r.covered) }
    ensures jumped { IfOk result (Jumps (choices codes.now) (state (B.bar bars.old) best.old log.old store.old)
        (state (B.bar bars.new) best.new log.new store.new) side.now) }
{
    if segment.hi <= segment.lo {
        return Ok(Settled {
            covered: Covered {
                cite: None,
                tie: false,
            },
            jumps: false,
        });
    }
    if segment.hi == segment.lo + 1 {
        return settle(
            alloc,
            codes,
            tables,
            job,
            bars,
            best,
            log,
            store,
            hints,
            side,
            segment.block,
            segment.lo,
            needs,
            view,
            false,
        );
    }
    let part = with(alloc, side, segment)?;
    let next = open_or(codes, &part, segment.block);
    let shown = refute(
        alloc, codes, tables, job, bars, best, log, store, hints, &part, next,
    )?;
    let record = &log.records()[shown.number as usize];
    add_result(codes, record, needs);
    let named = names(codes, record, segment.block);
    Ok(Settled {
        covered: Covered {
            cite: Some(shown.number),
            tie: shown.tie,
        },
        jumps: !named,
    })
}

/// Walks along the best plan: its own code first, down to the last block; then the codes above it and those below it.
#[cycle(refute)]
pub(crate) fn along<B: Bars>(
    alloc: Global,
    codes: &Codes,
    tables: &YardTables<'_>,
    job: Job,
    bars: &mut B,
    best: &mut Option<Plan>,
    log: &mut Log,
    store: &mut Nogoods,
    hints: &mut Hints,
    side: &PlanBox,
    range: Literal,
) -> Result<Shown, NoMemory>
    requires tables { tables.now.yard ≡ codes.now }
    requires served { B.yard bars.old ≡ codes.now }
    requires ready { IsReady (choices codes.now) job (state (B.bar bars.old) best.old log.old store.old) }
    requires node { IsNode (choices codes.now) job side.now range.block range.lo range.hi }
    ensures served { B.yard bars.new ≡ codes.now }
    ensures home { B.home bars.new ≡ B.home bars.old }
    ensures runs { Runs (choices codes.now) job (state (B.bar bars.old) best.old log.old store.old)
        (state (B.bar bars.new) best.new log.new store.new) }
    ensures prefix { store.new.prefix ≡ store.old.prefix }
    ensures shown { IfOk result (IsShownLast (choices codes.now) (state (B.bar bars.old) best.old log.old store.old)
        (state (B.bar bars.new) best.new log.new store.new) (node_box (choices codes.now) side.now range.block range.lo range.hi)) }
{
    if let Some(shown) = fitted(
        alloc, codes, tables, job, bars, best, log, store, hints, side,
    )? {
        return Ok(shown);
    }
    hints.note_rank(range.block, side.literals().len());
    let Some(code) = own_code(best, range) else {
        return divide(
            alloc, codes, tables, job, bars, best, log, store, hints, side, range,
        );
    };
    let mut needs = Blocks::none();
    let mut view = view_of(alloc, &*tables, side)?;
    let block = range.block;
    let own = settle(
        alloc, codes, tables, job, bars, best, log, store, hints, side, block, code, &mut needs,
        &mut view, true,
    )?;
    let upper = Literal {
        block: range.block,
        lo: code + 1,
        hi: range.hi,
    };
    let above = settle_segment(
        alloc, codes, tables, job, bars, best, log, store, hints, side, range, upper, &mut needs,
        &mut view,
    )?;
    let lower = Literal {
        block: range.block,
        lo: range.lo,
        hi: code,
    };
    let below = settle_segment(
        alloc, codes, tables, job, bars, best, log, store, hints, side, range, lower, &mut needs,
        &mut view,
    )?;
    let cites = cites_of(
        alloc,
        own.covered.cite,
        above.covered.cite,
        below.covered.cite,
    )?;
    let tie = own.covered.tie | above.covered.tie | below.covered.tie;
    close(alloc, codes, log, store, side, range, &needs, cites, tie)
}
