//! How one code of a block is covered by what a record needs already.
ghost use Rattle.std.specs.Prelude.{◌≡◌, ◌+◌, ◌<◌, ◌^◌, ℕ, true, [], IfOk, IfSome};
ghost use Rattle.plan_rule.specs.Boxes.{IsBox, LeavesFree};
ghost use Rattle.plan_rule.specs.Choices.{blocks, count};
ghost use Rattle.plan_rule.specs.Yards.{choices};
ghost use Rattle.tardiness_bounds.specs.declared.beside.Hindrance.TheVariants.{Clash};
ghost use Rattle.tardiness_bounds.specs.Besides.{TellsBeside};
ghost use Rattle.branch_kernel.specs.Known.{AreKnown};
ghost use Rattle.branch_kernel.specs.Marks.{has};
ghost use Rattle.branch_kernel.specs.Nodes.{IsNode};
ghost use Rattle.branch_kernel.specs.Growth.{IsReady, Runs};
ghost use Rattle.branch_kernel.specs.Shows.{IsHandledBy};
ghost use Rattle.branch_kernel.specs.States.{IsHeld, State, state};
ghost use Rattle.branch_kernel.specs.Covers.{IsCoverage};
ghost use Rattle.branch_search.specs.Views.{IsDear, IsView};

use crate::Hints;
use crate::floor::beats_from;
use crate::view::{Dear, SideView, dear_covers};
use branch_kernel::{Bars, Blocks, Coverage, Covered, cover, cover_by_box, keep, with};
use code_table::Codes;
use nogood_store::Nogoods;
use plan_rule::{Job, Literal, Plan, PlanBox};
use refutation_log::Log;
use shape_exact::NoMemory;
use std::alloc::Global;
use tardiness_bounds::{Beside, Hindrance, base};

/// Whether a code is hindered by a literal on one of these blocks.
fn is_among(hindrance: Hindrance, blocks: &Blocks) -> bool
    ensures { result ≡ true → (a : ℕ) × (hindrance ≡ Clash a) × (has blocks.now a ≡ true) }
{
    match hindrance {
        Hindrance::Clash(other) => blocks.has(other),
        Hindrance::Piece => false,
    }
}

/// Whether a code of a block is covered by the needed literals of a side alone: it clashes with one of them, or the base of
/// them with the code, or with one that costs no more, leaves nothing worth finding. Some answers whether by a tie.
fn kept_covers(
    alloc: Global,
    codes: &Codes,
    bar: u64,
    best: &Option<Plan>,
    side: &PlanBox,
    needs: &Blocks,
    block: u8,
    code: u32,
    beside: Beside,
    dear: &mut Option<Dear>,
) -> Result<Option<bool>, NoMemory>
    requires known { AreKnown (choices codes.now) }
    requires fits { bar < 2 ^ 64 }
    requires held { IsHeld (choices codes.now) bar best.now }
    requires side { IsBox (choices codes.now) side.now }
    requires free { LeavesFree side.now block }
    requires block { block < blocks (choices codes.now) }
    requires code { code < count (choices codes.now) block }
    requires beside { TellsBeside (choices codes.now) side.now block code beside }
    requires dear { IfSome dear.old (IsDear (choices codes.now) side.now (has needs.now) block) }
    ensures covered { IfOk result (λ o. IfSome o (λ tie. (start s : State) → s.bar ≡ bar → s.best ≡ best.now
        → IsHandledBy (choices codes.now) start s tie side.now (has needs.now) [] block code)) }
    ensures dear { IfSome dear.new (IsDear (choices codes.now) side.now (has needs.now) block) }
{
    if let Some(hindrance) = beside.hindrance {
        if is_among(hindrance, needs) {
            return Ok(Some(false));
        }
    }
    if let Some(tie) = dear_covers(codes, bar, best, dear, beside.cost) {
        return Ok(Some(tie));
    }
    let short = keep(alloc, side, needs)?;
    let part = with(alloc, &short, Literal::exact(block, code))?;
    let bound = base(codes, &part);
    let Some(tie) = beats_from(codes, bar, best, &short, bound) else {
        return Ok(None);
    };
    let cost = beside.cost;
    *dear = Some(Dear { short, cost, bound });
    Ok(Some(tie))
}

/// Covers one code of a block beside a side as the kernel does, but first by what is needed already, where that does.
fn cover_sparing<B: Bars>(
    alloc: Global,
    codes: &Codes,
    job: Job,
    bars: &mut B,
    best: &Option<Plan>,
    log: &Log,
    store: &Nogoods,
    side: &PlanBox,
    block: u8,
    code: u32,
    needs: &mut Blocks,
    view: &mut SideView<'_>,
) -> Result<Coverage, NoMemory>
    requires served { B.yard bars.old ≡ codes.now }
    requires ready { IsReady (choices codes.now) job (state (B.bar bars.old) best.now log.now store.now) }
    requires node { IsNode (choices codes.now) job side.now block code (code + 1) }
    requires view { IsView codes.now side.now (has needs.old) block view.old }
    ensures served { B.yard bars.new ≡ codes.now }
    ensures home { B.home bars.new ≡ B.home bars.old }
    ensures runs { Runs (choices codes.now) job (state (B.bar bars.old) best.now log.now store.now)
        (state (B.bar bars.new) best.now log.now store.now) }
    ensures needs { (x : ℕ) → has needs.old x ≡ true → has needs.new x ≡ true }
    ensures view { IsView codes.now side.now (has needs.new) block view.new }
    ensures covered { IfOk result (IsCoverage (choices codes.now) job (state (B.bar bars.old) best.now log.now store.now)
        (state (B.bar bars.new) best.now log.now store.now) side.now (has needs.new) block code) }
{
    let beside = view.front.beside(block, code, needs.marks());
    let bar = bars.see();
    let dear = &mut view.dear;
    if let Some(tie) = kept_covers(
        alloc, codes, bar, best, side, needs, block, code, beside, dear,
    )? {
        return Ok(Coverage::Done(Covered { cite: None, tie }));
    }
    cover(
        alloc, codes, job, bars, best, log, store, side, block, code, beside, needs,
    )
}

/// Covers one code of a block beside a side without a search below it, where that is possible: as above, or by a stored box
/// that contains the side with the code.
pub(crate) fn cover_known<B: Bars>(
    alloc: Global,
    codes: &Codes,
    job: Job,
    bars: &mut B,
    best: &Option<Plan>,
    log: &Log,
    store: &Nogoods,
    hints: &mut Hints,
    side: &PlanBox,
    block: u8,
    code: u32,
    needs: &mut Blocks,
    view: &mut SideView<'_>,
) -> Result<Coverage, NoMemory>
    requires served { B.yard bars.old ≡ codes.now }
    requires ready { IsReady (choices codes.now) job (state (B.bar bars.old) best.now log.now store.now) }
    requires node { IsNode (choices codes.now) job side.now block code (code + 1) }
    requires view { IsView codes.now side.now (has needs.old) block view.old }
    ensures served { B.yard bars.new ≡ codes.now }
    ensures home { B.home bars.new ≡ B.home bars.old }
    ensures runs { Runs (choices codes.now) job (state (B.bar bars.old) best.now log.now store.now)
        (state (B.bar bars.new) best.now log.now store.now) }
    ensures needs { (x : ℕ) → has needs.old x ≡ true → has needs.new x ≡ true }
    ensures view { IsView codes.now side.now (has needs.new) block view.new }
    ensures covered { IfOk result (IsCoverage (choices codes.now) job (state (B.bar bars.old) best.now log.now store.now)
        (state (B.bar bars.new) best.now log.now store.now) side.now (has needs.new) block code) }
{
    let child = match cover_sparing(
        alloc, codes, job, bars, best, log, store, side, block, code, needs, view,
    )? {
        Coverage::Done(covered) => return Ok(Coverage::Done(covered)),
        Coverage::Open(child) => child,
    };
    let own = Literal::exact(block, code);
    if let Some(place) = hints.find(codes, store, &child, own) {
        if let Some(covered) = cover_by_box(
            codes, job, store, side, block, code, &child, place, needs,
        ) {
            return Ok(Coverage::Done(covered));
        }
    }
    Ok(Coverage::Open(child))
}
