//! What the region of a job is, as far as a worker must know.
ghost use Rattle.std.specs.Prelude.{◌≡◌, ℕ, MatchBool};
ghost use Rattle.std.specs.Bool.{OnTrue};
ghost use Rattle.plan_rule.specs.Choices.{blocks, count};
ghost use Rattle.plan_rule.specs.Fronts.{HasCodes};
ghost use Rattle.plan_rule.specs.Jobs.{IsJob};
ghost use Rattle.plan_rule.specs.Yards.{choices};
ghost use Rattle.branch_workers.specs.Work.{IsEmptyRegion, IsKnown, IsSplit, LacksCodes};

use branch_kernel::count_of;
use code_table::Codes;
use plan_rule::{Job, Region, block_count, region_of};

/// Whether each block has a code.
pub(crate) fn has_codes(codes: &Codes) -> bool
    ensures { MatchBool result (HasCodes (choices codes.now)) (LacksCodes (choices codes.now)) }
{
    for block in 0..block_count(codes) {
        if count_of(codes, block) == 0 {
            return false;
        }
    }
    true
}

/// Whether the job's region is a part with a range.
pub(crate) fn splits(codes: &Codes, job: Job) -> bool
    requires { IsJob job }
    ensures { OnTrue result (IsSplit (choices codes.now) job) }
{
    match region_of(codes, job) {
        Region::Empty => false,
        Region::Part { hi, .. } => hi != 0,
    }
}

/// Whether the job's region has no plan though each block has a code. Such a job may come from elsewhere.
pub(crate) fn is_empty(codes: &Codes, job: Job) -> bool
    requires { IsJob job }
    ensures { MatchBool result (IsEmptyRegion (choices codes.now) job) (IsKnown (choices codes.now) job) }
{
    match region_of(codes, job) {
        Region::Empty => has_codes(codes),
        Region::Part { .. } => false,
    }
}
