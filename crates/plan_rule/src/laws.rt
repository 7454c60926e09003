//! Laws that the contracts of other crates rest on. Each is a call that does nothing and whose contract is the law.
ghost use Rattle.plan_rule.specs.Bounds.{IsBase, IsEnergy, IsFit};
ghost use Rattle.plan_rule.specs.Boxes.{IsBox};
ghost use Rattle.plan_rule.specs.Laws.{AreSmall, IsSound, KeysFollow, PathsFollow};
ghost use Rattle.plan_rule.specs.RegionBoxes.{RegionBoxHolds};
ghost use Rattle.plan_rule.specs.Regions.{HasOnePart};
ghost use Rattle.plan_rule.specs.Reports.{ReportsGiveBest};
ghost use Rattle.plan_rule.specs.Yards.{choices};

use crate::{Job, PlanBox};
use code_table::Codes;

/// Path numbers never fall along the lexicographic order of plans.
pub fn paths_follow_codes(codes: &Codes)
    ensures { PathsFollow (choices codes.now) }
{}

/// Where a plan is before another, its key is at most the other's.
pub fn keys_follow_order(codes: &Codes)
    ensures { KeysFollow (choices codes.now) }
{}

/// The total of every plan is below 2^31; so a key fits 64 bits, and is below the greatest number of 64 bits.
pub fn keys_are_small(codes: &Codes)
    ensures { AreSmall (choices codes.now) }
{
    codes.limits();
}

/// The base of a box is at most the total of a feasible plan in it; where it is Never there is no such plan.
pub fn base_is_sound(codes: &Codes, side: &PlanBox)
    ensures { IsSound (choices codes.now) side.now (IsBase (choices codes.now) side.now) }
{}

/// The fit of a box is at most the total of a feasible plan in it; where it is Never there is no such plan.
pub fn fit_is_sound(codes: &Codes, side: &PlanBox)
    requires { IsBox (choices codes.now) side.now }
    ensures { IsSound (choices codes.now) side.now (IsFit (choices codes.now) side.now) }
{}

/// The energy of a box in a window of days, both included, is at most the total of a feasible plan in it; where it is
/// Never there is no such plan. For on each cell of a plate stands at most one block on each open day.
pub fn energy_is_sound(codes: &Codes, side: &PlanBox, first: u16, last: u16)
    ensures { IsSound (choices codes.now) side.now (IsEnergy (choices codes.now) first last side.now) }
{
    codes.limits();
}

/// A job's region is described by one part alone: the same exact codes and the same range.
pub fn job_has_one_part(codes: &Codes, job: Job)
    ensures { HasOnePart (choices codes.now) job }
{}

/// The box of a job's region holds the plans of the region, and no other plan.
pub fn region_box_holds_region(codes: &Codes, job: Job)
    ensures { RegionBoxHolds (choices codes.now) job }
{}

/// Where the jobs of a list of reports tile and each report says what it should, the best of their plans is the best.
pub fn reports_give_best(codes: &Codes)
    ensures { ReportsGiveBest (choices codes.now) }
{
    codes.limits();
}
