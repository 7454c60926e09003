//! The search of a region that has a plan.
ghost use Rattle.std.specs.Prelude.{◌≡◌, ◌+◌, ◌<◌, [], ℕ, List, Option, None, length, IfOk, IfSome, OnErr};
ghost use Rattle.plan_rule.specs.Plans.{IsFeasible};
ghost use Rattle.plan_rule.specs.Paths.{IsInRegion};
ghost use Rattle.plan_rule.specs.Regions.{IsRegionPart};
ghost use Rattle.plan_rule.specs.Reports.{IsBar};
ghost use Rattle.plan_rule.specs.Yards.{choices};
ghost use Rattle.branch_kernel.specs.Rivals.{IsLater};
ghost use Rattle.branch_kernel.specs.States.{IsHeld, IsInside, state};
ghost use Rattle.branch_kernel.specs.Growth.{Ends, IsReady};
ghost use Rattle.branch_core.specs.Beaten.{IsBeaten, exact_box};
ghost use Rattle.branch_core.specs.Hits.{GainsOneCiting, HasNoHit, IsFirstHit};
ghost use Rattle.branch_core.specs.Proper.{AreProper};
ghost use Rattle.branch_core.specs.Shapes.{IsEnded, IsRegionShown};
ghost use Rattle.branch_core.specs.Solved.{IsSolved};

use crate::Report;
use crate::front::{Front, front_of};
use crate::hits::hit_from;
use crate::proper::records_are_proper;
use crate::single::{take_hit, take_last, take_misfit};
use branch_kernel::{Bars, Shown, bounded, take_plan};
use branch_search::{Hints, search_range};
use code_table::Codes;
use list_schedule::start_plan;
use nogood_store::Nogoods;
use plan_rule::{Job, Literal, Plan};
use refutation_log::Log;
use shape_exact::NoMemory;
use std::alloc::Global;
use tardiness_bounds::YardTables;

/// How many list schedules are tried where no plan is known yet.
const FIRST_TRIES: u32 = 96;

/// How many are tried where someone has found a plan.
const LATER_TRIES: u32 = 8;

/// Takes the plan with which a search begins: the one that is handed in, or else the best of some list schedules, where one
/// of them is a plan of the region and costs no more than the bar's total.
fn begin<B: Bars>(
    alloc: Global,
    codes: &Codes,
    tables: &YardTables<'_>,
    job: Job,
    bars: &mut B,
    best: &mut Option<Plan>,
    front: &[u32],
    lo: u32,
    hi: u32,
    start: Option<Plan>,
) -> Result<(), NoMemory>
    requires tables { tables.now.yard ≡ codes.now }
    requires served { B.yard bars.old ≡ codes.now }
    requires held { IsHeld (choices codes.now) (B.bar bars.old) best.old }
    requires inside { IsInside (choices codes.now) job best.old }
    requires part { IsRegionPart (choices codes.now) job front.now lo hi }
    requires start { IfSome start (λ p. IsFeasible (choices codes.now) p × IsInRegion (choices codes.now) job p) }
    ensures served { B.yard bars.new ≡ codes.now }
    ensures home { B.home bars.new ≡ B.home bars.old }
    ensures later { IsLater (choices codes.now) (B.bar bars.old) best.old (B.bar bars.new) best.new }
    ensures held { IsHeld (choices codes.now) (B.bar bars.new) best.new }
    ensures inside { IsInside (choices codes.now) job best.new }
{
    if let Some(plan) = start {
        take_plan(codes, job, bars, best, plan);
        return Ok(());
    }
    let bar = bars.see();
    let most = (bar / 0x1_0000_0000) as u32;
    let tries = if bar == u64::MAX {
        FIRST_TRIES
    } else {
        LATER_TRIES
    };
    if let Some(plan) = start_plan(alloc, codes, tables, job, front, lo, hi, most, tries)? {
        take_plan(codes, job, bars, best, plan);
    }
    Ok(())
}

/// Searches a region whose prefix meets no stored box: the prefix may have a misfit, its bounds may beat it, it may be
/// one plan, and else its range is searched.
fn search_unmet<B: Bars>(
    alloc: Global,
    codes: &Codes,
    tables: &YardTables<'_>,
    job: Job,
    bars: &mut B,
    best: &mut Option<Plan>,
    log: &mut Log,
    store: &mut Nogoods,
    hints: &mut Hints,
    front: &[u32],
    lo: u32,
    hi: u32,
    start: Option<Plan>,
) -> Result<Shown, NoMemory>
    requires tables { tables.now.yard ≡ codes.now }
    requires start { IfSome start (λ p. IsFeasible (choices codes.now) p × IsInRegion (choices codes.now) job p) }
    requires served { B.yard bars.old ≡ codes.now }
    requires ready { IsReady (choices codes.now) job (state (B.bar bars.old) best.old log.old store.old) }
    requires part { IsRegionPart (choices codes.now) job front.now lo hi }
    requires some { hi ≡ 0 → 0 < length front.now }
    ensures served { B.yard bars.new ≡ codes.now }
    ensures home { B.home bars.new ≡ B.home bars.old }
    ensures ended { IsEnded (choices codes.now) job (state (B.bar bars.old) best.old log.old store.old)
        (state (B.bar bars.new) best.new log.new store.new) }
    ensures prefix { store.new.prefix ≡ store.old.prefix }
    ensures shown { IfOk result (λ shown. IsRegionShown (choices codes.now) job front.now lo hi
        (state (B.bar bars.old) best.old log.old store.old) (state (B.bar bars.new) best.new log.new store.new)
        shown.tie shown.number) }
    ensures bound { IsBeaten (choices codes.now) (exact_box 0 front.now) (B.bar bars.old)
        → IfOk result (λ _. length log.new ≡ length log.old + 1) }
{
    let side = match front_of(alloc, codes, front)? {
        Front::Refused(misfit) => {
            return take_misfit(alloc, codes, job, log, store, front, lo, hi, misfit);
        }
        Front::Clear(side) => side,
    };
    if let Some(shown) = bounded(alloc, codes, tables, job, bars, best, log, store, &side)? {
        return Ok(shown);
    }
    if hi == 0 {
        return take_last(
            alloc, codes, job, bars, best, log, store, front, lo, hi, &side,
        );
    }
    let range = Literal {
        block: front.len() as u8,
        lo,
        hi,
    };
    begin(alloc, codes, tables, job, bars, best, front, lo, hi, start)?;
    search_range(
        alloc, codes, tables, job, bars, best, log, store, hints, &side, range,
    )
}

/// Searches a region. Where its prefix meets a stored box, the one record cites that box's tag.
fn search_part<B: Bars>(
    alloc: Global,
    codes: &Codes,
    tables: &YardTables<'_>,
    job: Job,
    bars: &mut B,
    best: &mut Option<Plan>,
    log: &mut Log,
    store: &mut Nogoods,
    hints: &mut Hints,
    front: &[u32],
    lo: u32,
    hi: u32,
    start: Option<Plan>,
) -> Result<Shown, NoMemory>
    requires tables { tables.now.yard ≡ codes.now }
    requires start { IfSome start (λ p. IsFeasible (choices codes.now) p × IsInRegion (choices codes.now) job p) }
    requires served { B.yard bars.old ≡ codes.now }
    requires ready { IsReady (choices codes.now) job (state (B.bar bars.old) best.old log.old store.old) }
    requires part { IsRegionPart (choices codes.now) job front.now lo hi }
    requires prefix { store.old.prefix ≡ [] }
    requires some { hi ≡ 0 → 0 < length front.now }
    ensures served { B.yard bars.new ≡ codes.now }
    ensures home { B.home bars.new ≡ B.home bars.old }
    ensures ended { IsEnded (choices codes.now) job (state (B.bar bars.old) best.old log.old store.old)
        (state (B.bar bars.new) best.new log.new store.new) }
    ensures prefix { store.new.prefix ≡ [] }
    ensures shown { IfOk result (λ shown. IsRegionShown (choices codes.now) job front.now lo hi
        (state (B.bar bars.old) best.old log.old store.old) (state (B.bar bars.new) best.new log.new store.new)
        shown.tie shown.number) }
    ensures hit { (place tag : ℕ) → IsFirstHit store.old.nogoods front.now place tag
        → IfOk result (λ _. GainsOneCiting log.old log.new tag) }
    ensures bound { HasNoHit store.old.nogoods front.now
        → IsBeaten (choices codes.now) (exact_box 0 front.now) (B.bar bars.old)
        → IfOk result (λ _. length log.new ≡ length log.old + 1) }
{
    if let Some((place, tag)) = hit_from(store, front, 0) {
        return take_hit(alloc, codes, job, log, store, front, lo, hi, place, tag);
    }
    search_unmet(
        alloc, codes, tables, job, bars, best, log, store, hints, front, lo, hi, start,
    )
}

/// The report on a job whose region has a plan.
pub(crate) fn solve_part<B: Bars>(
    alloc: Global,
    codes: &Codes,
    tables: &YardTables<'_>,
    job: Job,
    bars: &mut B,
    store: &mut Nogoods,
    log: &mut Log,
    hints: &mut Hints,
    front: &[u32],
    lo: u32,
    hi: u32,
    start: Option<Plan>,
) -> Result<Report, NoMemory>
    requires tables { tables.now.yard ≡ codes.now }
    requires start { IfSome start (λ p. IsFeasible (choices codes.now) p × IsInRegion (choices codes.now) job p) }
    requires served { B.yard bars.old ≡ codes.now }
    requires ready { IsReady (choices codes.now) job (state (B.bar bars.old) None log.old store.old) }
    requires part { IsRegionPart (choices codes.now) job front.now lo hi }
    requires some { hi ≡ 0 → 0 < length front.now }
    requires prefix { store.old.prefix ≡ [] }
    ensures served { B.yard bars.new ≡ codes.now }
    ensures home { B.home bars.new ≡ B.home bars.old }
    ensures bar { IsBar (choices codes.now) (B.bar bars.new) }
    ensures solved { IfOk result (λ r. IsSolved (choices codes.now) job (state (B.bar bars.old) None log.old store.old)
        (state (B.bar bars.new) r.best log.new store.new) r) }
    ensures left { OnErr result ((best : Option (List ℕ)) × Ends (choices codes.now)
        (state (B.bar bars.old) None log.old store.old) (state (B.bar bars.new) best log.new store.new)) }
    ensures proper { AreProper (choices codes.now) (length log.old) log.new }
    ensures prefix { store.new.prefix ≡ [] }
    ensures hit { (place tag : ℕ) → IsFirstHit store.old.nogoods front.now place tag
        → IfOk result (λ _. GainsOneCiting log.old log.new tag) }
    ensures bound { HasNoHit store.old.nogoods front.now
        → IsBeaten (choices codes.now) (exact_box 0 front.now) (B.bar bars.old)
        → IfOk result (λ _. length log.new ≡ length log.old + 1) }
{
    let first = log.records().len();
    let mut best = None;
    let found = search_part(
        alloc, codes, tables, job, bars, &mut best, log, store, hints, front, lo, hi, start,
    );
    let seen = bars.see();
    records_are_proper(codes, log, first);
    let shown = found?;
    Ok(Report {
        job,
        best,
        seen,
        refutation: shown.number,
    })
}
