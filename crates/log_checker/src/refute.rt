//! When a bound refutes a side.
ghost use Rattle.std.specs.Prelude.{◌↔◌, IsTrue};
ghost use Rattle.plan_rule.specs.Boxes.{IsBox};
ghost use Rattle.plan_rule.specs.Bounds.{Refutes};
ghost use Rattle.plan_rule.specs.Yards.{choices};
ghost use Rattle.log_checker.specs.Claims.{plan_of};
ghost use Rattle.log_checker.specs.Verdicts.{TellsRefuted};

use crate::judge::Judge;
use plan_rule::PlanBox;

/// Whether a bound of the side, None for Never, shows that no feasible plan in it is before the claimed plan; or, where
/// none is claimed, that no plan in it is feasible.
pub(crate) fn refutes(judge: &Judge<'_>, side: &PlanBox, bound: Option<u32>) -> bool
    requires side { IsBox (choices judge.now.codes.now) side.now }
    ensures { IsTrue result ↔ Refutes (choices judge.now.codes.now) (plan_of judge.now.claim) side.now bound }
{
    let Some(bound) = bound else {
        return true;
    };
    let Some(claim) = judge.claim else {
        return false;
    };
    if claim.total < bound {
        return true;
    }
    bound == claim.total && side.behind(claim.plan)
}

/// None where the bound refutes the side, and else the bound.
pub(crate) fn fault(judge: &Judge<'_>, side: &PlanBox, bound: Option<u32>) -> Option<u32>
    requires side { IsBox (choices judge.now.codes.now) side.now }
    ensures { TellsRefuted (choices judge.now.codes.now) (plan_of judge.now.claim) side.now bound result }
{
    if refutes(judge, side, bound) {
        return None;
    }
    bound
}
