//! What every function of the checker asks of a log's records.
ghost use Rattle.std.proofs.Props.{props};
ghost use Rattle.plan_rule.specs.Yards.{choices};
ghost use Rattle.log_checker.specs.Claims.{IsClaim};

use crate::claim::Claim;
use code_table::Codes;

/// The codes of a yard, and what a log is to show of it: that the claimed plan is the best, or where none is claimed that
/// no plan is feasible.
#[derive(Drop)]
pub(crate) struct Judge<'a> {
    pub codes: &'a Codes,
    pub claim: Option<Claim<'a>>,
    pub ghost claimed: { IsClaim (choices codes.now) claim } by { Prim.hlevel props },
}
