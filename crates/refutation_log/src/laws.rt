//! What an accepted log shows.
ghost use Rattle.std.specs.Prelude.{option_map};
ghost use Rattle.plan_rule.specs.Plans.{IsBest};
ghost use Rattle.plan_rule.specs.Yards.{choices};
ghost use Rattle.refutation_log.specs.Steps.{IsAccepted};

use crate::Log;
use code_table::Codes;
use plan_rule::Plan;

/// An answer with an accepted log is the best: the plan that no feasible plan is before, or none where none is feasible.
/// Nothing is asked of who wrote the log.
pub fn accepted_is_best(codes: &Codes, answer: Option<&Plan>, log: &Log)
    requires { IsAccepted (choices codes.now) (option_map (λ p. p.now) answer) log.now }
    ensures { IsBest (choices codes.now) (option_map (λ p. p.now) answer.entry) }
{
    codes.limits();
}
