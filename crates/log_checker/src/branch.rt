//! Branches: whether each code of a range is covered.
ghost use Rattle.std.specs.Prelude.{◌<◌, All, IfOk, length};
ghost use Rattle.plan_rule.specs.Choices.{blocks};
ghost use Rattle.plan_rule.specs.Boxes.{IsBox, LeavesFree};
ghost use Rattle.plan_rule.specs.Yards.{choices};
ghost use Rattle.refutation_log.specs.Steps.{IsRange};
ghost use Rattle.log_checker.specs.Claims.{plan_of};
ghost use Rattle.log_checker.specs.Forms.{HasForm};
ghost use Rattle.log_checker.specs.Masks.{AreTold};
ghost use Rattle.log_checker.specs.Verdicts.{TellsCovered};

use crate::cited::spans_of;
use crate::cut::cut_of;
use crate::exact::exact_of;
use crate::judge::Judge;
use crate::mask::Masks;
use crate::uncovered::first_uncovered;
use plan_rule::PlanBox;
use refutation_log::{Cites, Record};
use shape_exact::NoMemory;
use std::alloc::Global;

/// The first code of the range that nothing covers beside the side: it clashes with no code that the side fixes and meets no
/// piece, the base does not refute the side with it, and no cited record's box covers the side with it. None where each
/// code is covered.
pub(crate) fn branch_fault(
    alloc: Global,
    judge: &Judge<'_>,
    masks: &mut Masks,
    earlier: &[Record],
    block: u8,
    lo: u32,
    hi: u32,
    side: &PlanBox,
    cites: &Cites,
) -> Result<Option<u32>, NoMemory>
    requires told { AreTold judge.now.codes.now masks.old }
    requires earlier { All (HasForm (choices judge.now.codes.now)) earlier.now }
    requires block { block < blocks (choices judge.now.codes.now) }
    requires side { IsBox (choices judge.now.codes.now) side.now }
    requires free { LeavesFree side.now block }
    requires range { IsRange (choices judge.now.codes.now) block lo hi }
    requires cites { All (λ k. k < length earlier.now) cites.now }
    ensures value { IfOk result
        (TellsCovered (choices judge.now.codes.now) (plan_of judge.now.claim) earlier.now block lo hi side.now cites.now) }
    ensures told { AreTold judge.now.codes.now masks.new }
{
    let cut = cut_of(judge, side, block);
    let spans = spans_of(alloc, judge.codes, earlier, cites, side, block)?;
    let exacts = exact_of(judge.codes, side);
    Ok(first_uncovered(
        judge.codes,
        masks,
        block,
        lo,
        hi,
        cut,
        exacts.as_slice(),
        spans.as_slice(),
    ))
}

#[cfg(test)]
mod tests;
