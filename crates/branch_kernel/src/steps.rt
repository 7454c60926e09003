//! The two steps that end a box: a bound refutes it, or the record of a settled range closes it.
ghost use Rattle.std.specs.Prelude.{◌≡◌, ◌<◌, ◌≤◌, ◌/◌, Some, None, length, IfOk, All};
ghost use Rattle.plan_rule.specs.Choices.{blocks};
ghost use Rattle.plan_rule.specs.Boxes.{IsBox};
ghost use Rattle.plan_rule.specs.Bounds.{IsFit};
ghost use Rattle.plan_rule.specs.Yards.{choices};
ghost use Rattle.tardiness_bounds.specs.Numbers.{number};
ghost use Rattle.branch_kernel.specs.States.{state};
ghost use Rattle.branch_kernel.specs.Marks.{has};
ghost use Rattle.branch_kernel.specs.Nodes.{IsPlace};
ghost use Rattle.branch_kernel.specs.Shows.{TellsBounded};
ghost use Rattle.branch_kernel.specs.Growth.{IsReady, Runs};
ghost use Rattle.branch_kernel.specs.Written.{IsClosed};

use crate::{
    Bars, Blocks, beats, keep, keep_box, node_part, write_branch, write_energy, write_fit,
};
use code_table::Codes;
use nogood_store::Nogoods;
use plan_rule::{Job, Literal, Plan, PlanBox};
use refutation_log::Log;
use shape_exact::NoMemory;
use std::alloc::Global;
use tardiness_bounds::{Bound, YardTables, best_window, energy, fit_among};

/// What a record shows: its number, and whether it rests on a tie with the best plan so far.
#[derive(Clone, Copy, Drop)]
pub struct Shown {
    pub number: u64,
    pub tie: bool,
}

/// The fit of the box. Refused where memory is wanted.
pub fn fit_of(
    alloc: Global,
    codes: &Codes,
    tables: &YardTables<'_>,
    part: &PlanBox,
) -> Result<Bound, NoMemory>
    requires tables { tables.now.yard ≡ codes.now }
    requires part { IsBox (choices codes.now) part.now }
    ensures { IfOk result (λ bound. IsFit (choices codes.now) part.now (number bound)) }
{
    fit_among(alloc, tables, part)
}

/// Refutes the box by its fit, or by its energy in the best window, where one of them beats it: the log gains that one
/// record. None where neither does, and then the log is as it was.
pub fn bounded<B: Bars>(
    alloc: Global,
    codes: &Codes,
    tables: &YardTables<'_>,
    job: Job,
    bars: &mut B,
    best: &Option<Plan>,
    log: &mut Log,
    store: &Nogoods,
    part: &PlanBox,
) -> Result<Option<Shown>, NoMemory>
    requires tables { tables.now.yard ≡ codes.now }
    requires served { B.yard bars.old ≡ codes.now }
    requires ready { IsReady (choices codes.now) job (state (B.bar bars.old) best.now log.old store.now) }
    requires part { IsBox (choices codes.now) part.now }
    ensures served { B.yard bars.new ≡ codes.now }
    ensures home { B.home bars.new ≡ B.home bars.old }
    ensures runs { Runs (choices codes.now) job (state (B.bar bars.old) best.now log.old store.now)
        (state (B.bar bars.new) best.now log.new store.now) }
    ensures shown { IfOk result (TellsBounded (choices codes.now) (state (B.bar bars.old) best.now log.old store.now)
        (state (B.bar bars.new) best.now log.new store.now) part.now) }
{
    let bar = bars.see();
    let fit = fit_of(alloc, codes, tables, part)?;
    if let Some(tie) = beats(codes, bar, best, part, fit) {
        let number = write_fit(alloc, log, part)?;
        return Ok(Some(Shown { number, tie }));
    }
    if let Some((from, to)) = best_window(codes, part) {
        if let Some(tie) = beats(codes, bar, best, part, energy(codes, part, from, to)) {
            let number = write_energy(alloc, log, from, to, part)?;
            return Ok(Some(Shown { number, tie }));
        }
    }
    Ok(None)
}

/// Makes the record of a range whose codes are settled, without the literals of the side that none of them needed, and
/// stores its box where no tie was used.
pub fn close(
    alloc: Global,
    codes: &Codes,
    log: &mut Log,
    store: &mut Nogoods,
    side: &PlanBox,
    range: Literal,
    needs: &Blocks,
    cites: Vec<u64>,
    tie: bool,
) -> Result<Shown, NoMemory>
    requires cites { All (λ k. k < length log.old) cites.items }
    requires place { IsPlace (choices codes.now) side.now range.block range.lo range.hi }
    requires few { blocks (choices codes.now) ≤ 32 }
    ensures { IsClosed (choices codes.now) tie side.now range (has needs.now) cites.items log.old log.new store.old store.new result }
{
    let short = keep(alloc, side, needs)?;
    let part = node_part(alloc, codes, &short, range)?;
    let number = write_branch(log, range, short, cites)?;
    let shown = Shown { number, tie };
    keep_box(store, part, shown);
    Ok(shown)
}
