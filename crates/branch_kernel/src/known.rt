//! What the choices of every yard keep.
ghost use Rattle.plan_rule.specs.Yards.{choices};
ghost use Rattle.branch_kernel.specs.Known.{AreKnown};

use code_table::Codes;

/// What holds of the choices of every yard that has codes: keys fit 64 bits, no energy is above the total of a feasible
/// plan, a clash is mutual, and there are at most 32 blocks of at most 1,048,576 codes.
pub fn choices_are_known(codes: &Codes)
    ensures { AreKnown (choices codes.now) }
{
    codes.limits();
}
