//! What a log is to show.
ghost use Rattle.std.specs.Prelude.{◌≡◌, IfSome};
ghost use Rattle.std.specs.Option.{option_map};
ghost use Rattle.plan_rule.specs.Plans.{IsPlan};
ghost use Rattle.plan_rule.specs.Yards.{choices};
ghost use Rattle.log_checker.specs.Claims.{IsClaim, plan_of};

use code_table::Codes;
use plan_rule::{Plan, total};

/// A plan that is claimed to be the best, and its total.
#[derive(Clone, Copy)]
pub(crate) struct Claim<'a> {
    pub plan: &'a Plan,
    pub total: u32,
}

/// The claim of a plan, or that none is feasible.
pub(crate) fn claim_of<'a>(codes: &Codes, plan: Option<&'a Plan>) -> Option<Claim<'a>>
    requires { IfSome plan (λ p. IsPlan (choices codes.now) p.now) }
    ensures plan { plan_of result ≡ option_map (λ p. p.now) plan.entry }
    ensures claim { IsClaim (choices codes.now) result }
{
    match plan {
        Some(plan) => Some(Claim {
            plan,
            total: total(codes, plan),
        }),
        None => None,
    }
}
