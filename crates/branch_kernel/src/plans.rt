//! Plans that are taken: offered to the bar, and kept where they are the best so far.
ghost use Rattle.std.specs.Prelude.{◌≡◌, ◌≤◌, true, false, Some};
ghost use Rattle.plan_rule.specs.Plans.{IsPlan, IsAnswer, IsFeasible, IsNotBefore};
ghost use Rattle.plan_rule.specs.Paths.{IsInRegion};
ghost use Rattle.plan_rule.specs.Yards.{choices};
ghost use Rattle.branch_kernel.specs.Rivals.{IsLater, IsNoWorse};
ghost use Rattle.branch_kernel.specs.States.{IsHeld, IsInside};

use crate::Bars;
use code_table::Codes;
use plan_rule::{Job, Plan, before};

/// Whether the plan is before the best so far, or is the first.
fn is_better(codes: &Codes, plan: &Plan, best: &Option<Plan>) -> bool
    requires plan { IsPlan (choices codes.now) plan.now }
    requires best { IsAnswer (choices codes.now) best.now }
    ensures yes { result ≡ true → IsNoWorse (choices codes.now) best.now (Some plan.now) }
    ensures no { result ≡ false → IsNotBefore (choices codes.now) plan.now best.now }
{
    match best {
        Some(old) => before(codes, plan, old),
        None => true,
    }
}

/// Takes a feasible plan of the region: offers it to the bar, and keeps it where it is the first or before the best so
/// far.
/// Answers whether it is kept. A plan that a search begins with is taken by the same call.
pub fn take_plan<B: Bars>(
    codes: &Codes,
    job: Job,
    bars: &mut B,
    best: &mut Option<Plan>,
    plan: Plan,
) -> bool
    requires served { B.yard bars.old ≡ codes.now }
    requires held { IsHeld (choices codes.now) (B.bar bars.old) best.old }
    requires inside { IsInside (choices codes.now) job best.old }
    requires feasible { IsFeasible (choices codes.now) plan }
    requires region { IsInRegion (choices codes.now) job plan }
    ensures served { B.yard bars.new ≡ codes.now }
    ensures home { B.home bars.new ≡ B.home bars.old }
    ensures later { IsLater (choices codes.now) (B.bar bars.old) best.old (B.bar bars.new) best.new }
    ensures held { IsHeld (choices codes.now) (B.bar bars.new) best.new }
    ensures inside { IsInside (choices codes.now) job best.new }
    ensures taken { IsNotBefore (choices codes.now) plan best.new }
{
    bars.offer(codes, &plan);
    let better = is_better(codes, &plan, best);
    if better {
        *best = Some(plan);
    }
    better
}
