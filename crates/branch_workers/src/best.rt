//! The best of the reported plans.
ghost use Rattle.std.specs.Prelude.{map, All, IfOk, IfSome};
ghost use Rattle.branch_core.specs.Solved.{report_of};
ghost use Rattle.plan_rule.specs.Plans.{IsPlan};
ghost use Rattle.plan_rule.specs.Reports.{IsBestOf, IsReached};
ghost use Rattle.plan_rule.specs.Yards.{choices};
ghost use Rattle.branch_workers.specs.Best.{IsConsidered};

use branch_core::Report;
use code_table::Codes;
use plan_rule::{Plan, before};
use shape_exact::NoMemory;
use std::alloc::Global;

/// The report's best plan where it is before the best so far, and else the best so far.
fn consider(
    alloc: Global,
    codes: &Codes,
    best: Option<Plan>,
    report: &Report,
) -> Result<Option<Plan>, NoMemory>
    requires best { IfSome best (IsPlan (choices codes.now)) }
    requires plan { IfSome report.now.best (IsPlan (choices codes.now)) }
    ensures { IfOk result (IsConsidered (choices codes.now) best report.now.best) }
{
    let Some(plan) = &report.best else {
        return Ok(best);
    };
    if let Some(old) = best {
        if !before(codes, plan, &old) {
            return Ok(Some(old));
        }
    }
    Ok(Some(plan.copy(alloc)?))
}

/// The reported plan that no other reported plan is before; none where no report has one.
pub(crate) fn best_of(
    alloc: Global,
    codes: &Codes,
    reports: &[Report],
) -> Result<Option<Plan>, NoMemory>
    requires { All (λ r. IsReached (choices codes.now) (report_of r)) reports.now }
    ensures { IfOk result (IsBestOf (choices codes.now) (map report_of reports.now)) }
{
    let mut best = None;
    for report in reports {
        best = consider(alloc, codes, best, report)?;
    }
    Ok(best)
}
