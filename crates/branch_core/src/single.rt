//! The regions that make one record without a bound: their prefix meets a stored box or has a misfit, they leave one
//! plan, or some block has no code.
ghost use Rattle.std.specs.Prelude.{◌≡◌, ◌+◌, ◌<◌, ℕ, List, Option, length, IfOk, OnErr, Some, true};
ghost use Rattle.plan_rule.specs.Choices.{blocks, count};
ghost use Rattle.plan_rule.specs.Regions.{IsRegionPart};
ghost use Rattle.plan_rule.specs.Yards.{choices};
ghost use Rattle.branch_kernel.specs.Known.{AreKnown};
ghost use Rattle.branch_kernel.specs.Boxes.{IsClear, IsFront};
ghost use Rattle.branch_kernel.specs.Marks.{has};
ghost use Rattle.branch_kernel.specs.States.{state};
ghost use Rattle.branch_kernel.specs.Stored.{IsStored};
ghost use Rattle.branch_kernel.specs.Growth.{IsReady};
ghost use Rattle.branch_core.specs.Fronts.{IsMisfit};
ghost use Rattle.branch_core.specs.Hits.{GainsOneCiting, IsFirstHit};
ghost use Rattle.branch_core.specs.Shapes.{IsEmptyWritten, IsEnded, IsRegionShown, IsSingle};

use crate::front::{Misfit, front_side};
use branch_kernel::{Bars, Blocks, Shown, close, count_of, take_plan, write_branch};
use code_table::Codes;
use nogood_store::Nogoods;
use plan_rule::{Job, Literal, Plan, PlanBox};
use refutation_log::Log;
use shape_exact::NoMemory;
use std::alloc::Global;

/// The record of a region whose prefix meets a stored box: it cites the box's tag.
pub(crate) fn take_hit(
    alloc: Global,
    codes: &Codes,
    job: Job,
    log: &mut Log,
    store: &mut Nogoods,
    front: &[u32],
    lo: u32,
    hi: u32,
    place: usize,
    tag: u64,
) -> Result<Shown, NoMemory>
    requires part { IsRegionPart (choices codes.now) job front.now lo hi }
    requires known { AreKnown (choices codes.now) }
    requires stored { IsStored (choices codes.now) log.old store.old.nogoods }
    requires hit { IsFirstHit store.old.nogoods front.now place tag }
    ensures shown { (bar : ℕ) (best : Option (List ℕ)) → IsReady (choices codes.now) job (state bar best log.old store.old)
        → IsSingle (choices codes.now) job front.now lo hi (state bar best log.old store.old)
        (state bar best log.new store.new) result }
    ensures cites { IfOk result (λ _. GainsOneCiting log.old log.new tag) }
    ensures prefix { store.new.prefix ≡ store.old.prefix }
{
    let side = front_side(alloc, codes, front, place)?;
    let mut needs = Blocks::none();
    needs.add_all(&side);
    let mut cites = Vec::new(alloc);
    cites.push(tag)?;
    let range = Literal::exact(place as u8, front[place]);
    close(alloc, codes, log, store, &side, range, &needs, cites, false)
}

/// The set of the one block, or the empty set.
fn needs_of(other: Option<u8>) -> Blocks
    ensures { (a : ℕ) → other ≡ Some a → a < 32 → has result a ≡ true }
{
    let mut needs = Blocks::none();
    if let Some(block) = other {
        needs.add(block);
    }
    needs
}

/// The record of a region whose prefix has a misfit: a clash needs the literal of the one other block, and a meeting with
/// a piece none.
pub(crate) fn take_misfit(
    alloc: Global,
    codes: &Codes,
    job: Job,
    log: &mut Log,
    store: &mut Nogoods,
    front: &[u32],
    lo: u32,
    hi: u32,
    misfit: Misfit,
) -> Result<Shown, NoMemory>
    requires part { IsRegionPart (choices codes.now) job front.now lo hi }
    requires known { AreKnown (choices codes.now) }
    requires misfit { IsMisfit (choices codes.now) front.now misfit }
    ensures shown { (bar : ℕ) (best : Option (List ℕ)) → IsReady (choices codes.now) job (state bar best log.old store.old)
        → IsSingle (choices codes.now) job front.now lo hi (state bar best log.old store.old)
        (state bar best log.new store.new) result }
    ensures prefix { store.new.prefix ≡ store.old.prefix }
{
    let needs = needs_of(misfit.other);
    let range = Literal::exact(misfit.place, front[usize::from(misfit.place)]);
    let cites = Vec::new(alloc);
    close(
        alloc,
        codes,
        log,
        store,
        &misfit.side,
        range,
        &needs,
        cites,
        false,
    )
}

/// The record of a region of one plan, once the plan is taken.
pub(crate) fn take_last<B: Bars>(
    alloc: Global,
    codes: &Codes,
    job: Job,
    bars: &mut B,
    best: &mut Option<Plan>,
    log: &mut Log,
    store: &mut Nogoods,
    front: &[u32],
    lo: u32,
    hi: u32,
    side: &PlanBox,
) -> Result<Shown, NoMemory>
    requires served { B.yard bars.old ≡ codes.now }
    requires ready { IsReady (choices codes.now) job (state (B.bar bars.old) best.old log.old store.old) }
    requires part { IsRegionPart (choices codes.now) job front.now lo hi }
    requires whole { hi ≡ 0 }
    requires some { 0 < length front.now }
    requires front { IsFront (choices codes.now) front.now (length front.now) side.now }
    requires clear { IsClear (choices codes.now) side.now }
    ensures served { B.yard bars.new ≡ codes.now }
    ensures home { B.home bars.new ≡ B.home bars.old }
    ensures ended { IsEnded (choices codes.now) job (state (B.bar bars.old) best.old log.old store.old)
        (state (B.bar bars.new) best.new log.new store.new) }
    ensures shown { IfOk result (λ shown. (length log.new ≡ length log.old + 1)
        × IsRegionShown (choices codes.now) job front.now lo hi (state (B.bar bars.old) best.old log.old store.old)
        (state (B.bar bars.new) best.new log.new store.new) shown.tie shown.number) }
    ensures prefix { store.new.prefix ≡ store.old.prefix }
{
    let plan = Plan::new(alloc, codes, front)?;
    take_plan(codes, job, bars, best, plan);
    let last = front.len() - 1;
    let rest = front_side(alloc, codes, front, last)?;
    let mut needs = Blocks::none();
    needs.add_all(&rest);
    let range = Literal::exact(last as u8, front[last]);
    let cites = Vec::new(alloc);
    close(alloc, codes, log, store, &rest, range, &needs, cites, true)
}

/// The record of a region in which some block has no code: its box is the empty one.
pub(crate) fn take_empty(alloc: Global, codes: &Codes, log: &mut Log) -> Result<Shown, NoMemory>
    requires known { AreKnown (choices codes.now) }
    requires empty { (b : ℕ) × (b < blocks (choices codes.now)) × (count (choices codes.now) b ≡ 0) }
    ensures written { IfOk result (λ shown. IsEmptyWritten (choices codes.now) log.old log.new shown) }
    ensures err { OnErr result (log.new ≡ log.old) }
{
    let mut block = 0;
    while count_of(codes, block) > 0 {
        block += 1;
    }
    let side = PlanBox::new(alloc, &[])?;
    let range = Literal {
        block,
        lo: 0,
        hi: 0,
    };
    let number = write_branch(log, range, side, Vec::new(alloc))?;
    Ok(Shown { number, tie: false })
}
