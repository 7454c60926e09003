//! The best plan.
ghost use Rattle.std.specs.Prelude.{IfOk};
ghost use Rattle.plan_rule.specs.Plans.{IsBest};
ghost use Rattle.plan_rule.specs.Yards.{choices};

use crate::search::search;
use crate::tails::tails;
use code_table::Codes;
use plan_rule::Plan;
use shape_exact::NoMemory;
use std::alloc::Global;

/// The best plan of the yard; None exactly where no plan is feasible.
pub fn best_plan(alloc: Global, codes: &Codes) -> Result<Option<Plan>, NoMemory>
    ensures best { IfOk result (λ found. IsBest (choices codes.now) found) }
{
    let Some(tails) = tails(alloc, codes)? else {
        return Ok(None);
    };
    let mut front = Vec::new(alloc);
    let mut hand = None;
    search(alloc, codes, tails.as_slice(), &mut front, 0, &mut hand)?;
    match hand {
        Some(hand) => Ok(Some(hand.plan)),
        None => Ok(None),
    }
}
