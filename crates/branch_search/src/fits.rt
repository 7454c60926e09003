//! Boxes that their fit refutes, and the literals that it needs.
ghost use Rattle.std.specs.Prelude.{◌≡◌, ◌+◌, ◌<◌, ◌/◌, ◌^◌, Some, IfOk, IfSome, MatchOption, Option, length};
ghost use Rattle.plan_rule.specs.Boxes.{IsBox};
ghost use Rattle.plan_rule.specs.Yards.{choices};
ghost use Rattle.tardiness_bounds.specs.Numbers.{number};
ghost use Rattle.branch_kernel.specs.Known.{AreKnown};
ghost use Rattle.branch_kernel.specs.States.{IsHeld, state};
ghost use Rattle.branch_kernel.specs.Growth.{IsReady, Runs};
ghost use Rattle.branch_kernel.specs.Shows.{IsShownLast};
ghost use Rattle.branch_search.specs.Fits.{HasLowFit, IsBeatenSide};

use crate::Hints;
use crate::choose::{number_of, wanted};
use branch_kernel::{Bars, Blocks, Shown, beats, copy, fit_of, keep, keep_box, write_fit};
use code_table::Codes;
use nogood_store::Nogoods;
use plan_rule::{Job, Plan, PlanBox};
use refutation_log::Log;
use shape_exact::NoMemory;
use std::alloc::Global;
use tardiness_bounds::{Frontier, YardTables};

/// A box, and whether its fit beats it by a tie.
#[derive(Drop)]
pub(crate) struct Beaten {
    pub side: PlanBox,
    pub tie: bool,
}

/// The fit of the literals of one code on these blocks.
fn fit_on(
    alloc: Global,
    tables: &YardTables<'_>,
    part: &PlanBox,
    kept: &[bool; 32],
) -> Result<u32, NoMemory> {
    let mut front = Frontier::new(alloc, tables)?;
    for l in part.literals() {
        if l.block < 32
            && kept[usize::from(l.block)]
            && l.is_exact(l.block, l.lo)
            && front.can_push(l.block, l.lo)
        {
            front.push(l.block, l.lo);
        }
    }
    Ok(number_of(front.bound()))
}

/// Whether the literal of one block is left out before that of another: it is not needed anyway and the other is, or
/// else it was branched on later.
fn is_before(hints: &Hints, one: u8, other: u8) -> bool {
    if hints.is_needed(one) == hints.is_needed(other) {
        hints.rank(other) <= hints.rank(one)
    } else {
        hints.is_needed(other)
    }
}

/// The block of the box whose literal is left out next, among those that were not tried.
fn latest(part: &PlanBox, hints: &Hints, tried: &[bool; 32]) -> Option<u8> {
    let mut found: Option<u8> = None;
    for l in part.literals() {
        if l.block < 32 && !tried[usize::from(l.block)] {
            let sooner = match found {
                Some(other) => is_before(hints, l.block, other),
                None => true,
            };
            if sooner {
                found = Some(l.block);
            }
        }
    }
    found
}

/// The first blocks whose literals set the box behind a plan: those that are exact with its codes, and the next.
fn front_blocks(part: &PlanBox, plan: &Plan) -> [bool; 32] {
    let mut marks = [false; 32];
    let codes = plan.codes();
    for (i, l) in part.literals().iter().enumerate() {
        if usize::from(l.block) != i || i >= 32 {
            break;
        }
        marks[i] = true;
        if i >= codes.len() || !l.is_exact(l.block, codes[i]) {
            break;
        }
    }
    marks
}

/// The greatest total that the fit of a box has to exceed without its plans being behind the best. It is below Never where
/// there is no bar.
fn strict_total(bar: u64) -> u32 {
    (bar / 0x1_0000_0000).min(0xffff_fffe) as u32
}

/// The blocks whose literals the search takes for needed by the fit of the box: those branched on last are left out first,
/// as long as the fit stays above what is wanted. Where the fit ties with the best, what sets the box behind it stays;
/// where it is above, the bar alone is asked, so that the record holds wherever those literals stand together.
fn proposal(
    alloc: Global,
    tables: &YardTables<'_>,
    bar: u64,
    best: &Option<Plan>,
    hints: &Hints,
    part: &PlanBox,
    tie: bool,
) -> Result<Blocks, NoMemory> {
    let (most, mut tried) = match best {
        Some(plan) if tie => (hints.wanted(), front_blocks(part, plan)),
        _ => (strict_total(bar), [false; 32]),
    };
    let mut kept = [true; 32];
    for _ in part.literals() {
        let Some(block) = latest(part, hints, &tried) else {
            break;
        };
        if block >= 32 {
            break;
        }
        tried[usize::from(block)] = true;
        kept[usize::from(block)] = false;
        if fit_on(alloc, tables, part, &kept)? <= most {
            kept[usize::from(block)] = true;
        }
    }
    let mut marks = Blocks::none();
    for block in 0..32u8 {
        if kept[usize::from(block)] {
            marks.add(block);
        }
    }
    Ok(marks)
}

/// What is kept of the box, where its fit beats it.
fn beaten_part(
    alloc: Global,
    codes: &Codes,
    tables: &YardTables<'_>,
    bar: u64,
    best: &Option<Plan>,
    part: &PlanBox,
    marks: &Blocks,
) -> Result<Option<Beaten>, NoMemory>
    requires tables { tables.now.yard ≡ codes.now }
    requires known { AreKnown (choices codes.now) }
    requires held { IsHeld (choices codes.now) bar best.now }
    requires part { IsBox (choices codes.now) part.now }
    ensures { IfOk result (λ o. IfSome o (IsBeatenSide (choices codes.now) bar best.now part.now)) }
{
    let side = keep(alloc, part, marks)?;
    let fit = fit_of(alloc, codes, tables, &side)?;
    let Some(tie) = beats(codes, bar, best, &side, fit) else {
        return Ok(None);
    };
    Ok(Some(Beaten { side, tie }))
}

/// The box whose fit beats it, of the literals that refuted the last code past the slack, of those that the search proposes or
/// of all; None where the fit of all does not.
fn beaten_side(
    alloc: Global,
    codes: &Codes,
    tables: &YardTables<'_>,
    bar: u64,
    best: &Option<Plan>,
    hints: &Hints,
    part: &PlanBox,
) -> Result<Option<Beaten>, NoMemory>
    requires tables { tables.now.yard ≡ codes.now }
    requires known { AreKnown (choices codes.now) }
    requires held { IsHeld (choices codes.now) bar best.now }
    requires part { IsBox (choices codes.now) part.now }
    ensures { IfOk result (λ o. MatchOption o (HasLowFit (choices codes.now) part.now (bar / 2 ^ 32))
        (λ beaten. IsBeatenSide (choices codes.now) bar best.now part.now beaten)) }
{
    if let Some(last) = hints.last_side(codes) {
        if let Some(beaten) = beaten_part(alloc, codes, tables, bar, best, part, &last)? {
            return Ok(Some(beaten));
        }
    }
    let fit = fit_of(alloc, codes, tables, part)?;
    let Some(tie) = beats(codes, bar, best, part, fit) else {
        return Ok(None);
    };
    let marks = proposal(alloc, tables, bar, best, hints, part, tie)?;
    if let Some(beaten) = beaten_part(alloc, codes, tables, bar, best, part, &marks)? {
        return Ok(Some(beaten));
    }
    let side = copy(alloc, part)?;
    Ok(Some(Beaten { side, tie }))
}

/// Refutes the box by its fit, where that beats it: the log gains one record, of the literals that the search takes for
/// needed, and the box of those may be stored. None where the fit does not.
pub(crate) fn fitted<B: Bars>(
    alloc: Global,
    codes: &Codes,
    tables: &YardTables<'_>,
    job: Job,
    bars: &mut B,
    best: &Option<Plan>,
    log: &mut Log,
    store: &mut Nogoods,
    hints: &mut Hints,
    part: &PlanBox,
) -> Result<Option<Shown>, NoMemory>
    requires tables { tables.now.yard ≡ codes.now }
    requires served { B.yard bars.old ≡ codes.now }
    requires ready { IsReady (choices codes.now) job (state (B.bar bars.old) best.now log.old store.old) }
    requires part { IsBox (choices codes.now) part.now }
    ensures served { B.yard bars.new ≡ codes.now }
    ensures home { B.home bars.new ≡ B.home bars.old }
    ensures runs { Runs (choices codes.now) job (state (B.bar bars.old) best.now log.old store.old)
        (state (B.bar bars.new) best.now log.new store.new) }
    ensures prefix { store.new.prefix ≡ store.old.prefix }
    ensures shown { IfOk result (λ o. MatchOption o (HasLowFit (choices codes.now) part.now (B.bar bars.new / 2 ^ 32))
        (IsShownLast (choices codes.now) (state (B.bar bars.old) best.now log.old store.old)
        (state (B.bar bars.new) best.now log.new store.new) part.now)) }
{
    let bar = bars.see();
    hints.note_wanted(wanted(codes, bar, best, part));
    let Some(beaten) = beaten_side(alloc, codes, tables, bar, best, hints, part)? else {
        return Ok(None);
    };
    hints.note_side(codes, &beaten.side);
    let tie = beaten.tie;
    let number = write_fit(alloc, log, &beaten.side)?;
    let shown = Shown { number, tie };
    keep_box(store, beaten.side, shown);
    Ok(Some(shown))
}
