//! How one code of a block is covered beside a side.
ghost use Rattle.std.specs.Prelude.{◌≡◌, ◌+◌, ◌<◌, ℕ, Some, None, true, false, length, IfOk, IfSome};
ghost use Rattle.plan_rule.specs.Boxes.{exact, with_literal};
ghost use Rattle.plan_rule.specs.Yards.{choices};
ghost use Rattle.tardiness_bounds.specs.declared.beside.Hindrance.TheVariants.{Clash};
ghost use Rattle.tardiness_bounds.specs.Besides.{TellsBeside};
ghost use Rattle.branch_kernel.specs.States.{state};
ghost use Rattle.branch_kernel.specs.Boxes.{IsWholePlan};
ghost use Rattle.branch_kernel.specs.Marks.{has};
ghost use Rattle.branch_kernel.specs.Nodes.{IsNode, IsOpenBox};
ghost use Rattle.branch_kernel.specs.Growth.{IsReady, Runs};
ghost use Rattle.branch_kernel.specs.Covers.{CoversByRecord, CoversCode, CoversFrom, IsCoverage};

use crate::{Bars, Blocks, Shown, add_result, beats, plan_of, take_plan, with};
use code_table::Codes;
use nogood_store::Nogoods;
use plan_rule::{Job, Literal, Plan, PlanBox};
use refutation_log::Log;
use shape_exact::NoMemory;
use std::alloc::Global;
use tardiness_bounds::{Beside, Hindrance, base};

/// How a code is covered: by which record, if one is needed, and whether by a tie with the best plan so far.
#[derive(Clone, Copy, Drop)]
pub struct Covered {
    pub cite: Option<u64>,
    pub tie: bool,
}

/// A code is covered, or the side with the code is still to be searched.
#[derive(Drop)]
pub enum Coverage {
    Done(Covered),
    Open(PlanBox),
}

/// Marks the block whose literal hinders a code, if it is one.
fn mark(hindrance: Hindrance, needs: &mut Blocks)
    ensures keeps { (x : ℕ) → has needs.old x ≡ true → has needs.new x ≡ true }
    ensures marked { (a : ℕ) → hindrance ≡ Clash a → a < 32 → has needs.new a ≡ true }
{
    match hindrance {
        Hindrance::Clash(other) => needs.add(other),
        Hindrance::Piece => {}
    }
}

/// Covers one code of a block beside a side, where no search is needed for it: it clashes with an exact code of the
/// side, it meets a piece, or the base beats the side with the code. The caller tells what hinders it, if anything does.
/// Marks the blocks whose literals are needed. Else answers the side with the code.
pub fn cover<B: Bars>(
    alloc: Global,
    codes: &Codes,
    job: Job,
    bars: &mut B,
    best: &Option<Plan>,
    log: &Log,
    store: &Nogoods,
    side: &PlanBox,
    block: u8,
    code: u32,
    beside: Beside,
    needs: &mut Blocks,
) -> Result<Coverage, NoMemory>
    requires served { B.yard bars.old ≡ codes.now }
    requires ready { IsReady (choices codes.now) job (state (B.bar bars.old) best.now log.now store.now) }
    requires node { IsNode (choices codes.now) job side.now block code (code + 1) }
    requires beside { TellsBeside (choices codes.now) side.now block code beside }
    ensures served { B.yard bars.new ≡ codes.now }
    ensures home { B.home bars.new ≡ B.home bars.old }
    ensures runs { Runs (choices codes.now) job (state (B.bar bars.old) best.now log.now store.now)
        (state (B.bar bars.new) best.now log.now store.now) }
    ensures needs { (x : ℕ) → has needs.old x ≡ true → has needs.new x ≡ true }
    ensures covered { IfOk result (IsCoverage (choices codes.now) job (state (B.bar bars.old) best.now log.now store.now)
        (state (B.bar bars.new) best.now log.now store.now) side.now (has needs.new) block code) }
{
    if let Some(hindrance) = beside.hindrance {
        mark(hindrance, needs);
        return Ok(Coverage::Done(Covered {
            cite: None,
            tie: false,
        }));
    }
    let child = with(alloc, side, Literal::exact(block, code))?;
    let bar = bars.see();
    if let Some(tie) = beats(codes, bar, best, &child, base(codes, &child)) {
        needs.add_all(side);
        return Ok(Coverage::Done(Covered { cite: None, tie }));
    }
    Ok(Coverage::Open(child))
}

/// Covers a code by the box that stands at a place of the store, where that one contains the side with the code, and marks
/// the blocks that it names. None where no box stands there, or one that does not contain it.
pub fn cover_by_box(
    codes: &Codes,
    job: Job,
    store: &Nogoods,
    side: &PlanBox,
    block: u8,
    code: u32,
    child: &PlanBox,
    place: u32,
    needs: &mut Blocks,
) -> Option<Covered>
    requires child { child.now ≡ with_literal side.now (exact block code) }
    ensures needs { (x : ℕ) → has needs.old x ≡ true → has needs.new x ≡ true }
    ensures covered { IfSome result
        (CoversFrom (choices codes.now) job store.now.nogoods side.now (has needs.new) block code) }
{
    let known = store.at(place)?;
    if known.part.contains(codes, child) {
        needs.add_all(&known.part);
        return Some(Covered {
            cite: Some(known.tag),
            tie: false,
        });
    }
    None
}

/// Covers a code by the plan that the side with the code leaves: the plan is offered, and afterwards it is not before
/// the best plan so far. No record is needed: the base of that box ties with the best.
pub fn cover_by_plan<B: Bars>(
    alloc: Global,
    codes: &Codes,
    job: Job,
    bars: &mut B,
    best: &mut Option<Plan>,
    log: &Log,
    store: &Nogoods,
    side: &PlanBox,
    block: u8,
    code: u32,
    child: &PlanBox,
    needs: &mut Blocks,
) -> Result<Covered, NoMemory>
    requires served { B.yard bars.old ≡ codes.now }
    requires ready { IsReady (choices codes.now) job (state (B.bar bars.old) best.old log.now store.now) }
    requires node { IsNode (choices codes.now) job side.now block code (code + 1) }
    requires child { child.now ≡ with_literal side.now (exact block code) }
    requires open { IsOpenBox (choices codes.now) job child.now }
    requires whole { IsWholePlan (choices codes.now) child.now }
    ensures served { B.yard bars.new ≡ codes.now }
    ensures home { B.home bars.new ≡ B.home bars.old }
    ensures runs { Runs (choices codes.now) job (state (B.bar bars.old) best.old log.now store.now)
        (state (B.bar bars.new) best.new log.now store.now) }
    ensures needs { (x : ℕ) → has needs.old x ≡ true → has needs.new x ≡ true }
    ensures covered { IfOk result (CoversCode (choices codes.now) (state (B.bar bars.old) best.old log.now store.now)
        (state (B.bar bars.new) best.new log.now store.now) side.now (has needs.new) block code) }
{
    let plan = plan_of(alloc, codes, child)?;
    take_plan(codes, job, bars, best, plan);
    needs.add_all(side);
    Ok(Covered {
        cite: None,
        tie: true,
    })
}

/// Covers a code by a record of the log that shows the side with the code, and marks the blocks that its result names.
pub fn cover_by_record(
    codes: &Codes,
    job: Job,
    log: &Log,
    side: &PlanBox,
    block: u8,
    code: u32,
    shown: Shown,
    needs: &mut Blocks,
) -> Covered
    requires number { shown.number < length log.now }
    ensures result { result ≡ record { cite = Some shown.number; tie = shown.tie } }
    ensures needs { (x : ℕ) → has needs.old x ≡ true → has needs.new x ≡ true }
    ensures covered { CoversByRecord (choices codes.now) job log.now shown side.now (has needs.new) block code result }
{
    let record = &log.records()[shown.number as usize];
    add_result(codes, record, needs);
    Covered {
        cite: Some(shown.number),
        tie: shown.tie,
    }
}
