//! The yard of two squares, and its plans.
ghost use Rattle.std.specs.Prelude.{◌≡◌, length};
ghost use Rattle.plan_rule.specs.Plans.{IsFeasible};
ghost use Rattle.plan_rule.specs.Yards.{choices};

use code_table::Codes;
use plan_rule::{Plan, first_clash, first_met};
use sample_yards::TWO_SQUARES;
use std::alloc::Global;
use std::process::Abort;

/// The codes of the yard.
pub(crate) fn codes_of(rt: &impl Abort, alloc: Global) -> Codes
    ensures { length result.blocks ≡ 2 }
{
    let codes = sample_yards::codes_of(alloc, TWO_SQUARES).expect(rt, "codes");
    assert!(rt; codes.yard().blocks().len() == 2);
    codes
}

/// The plan of these codes, which is feasible.
pub(crate) fn plan_of(
    rt: &impl Abort,
    alloc: Global,
    codes: &Codes,
    first: u32,
    second: u32,
) -> Plan
    requires { length codes.now.blocks ≡ 2 }
    ensures { IsFeasible (choices codes.now) result }
{
    if first >= codes.count(0) || second >= codes.count(1) {
        panic!(rt; "no such code");
    }
    let plan = Plan::new(alloc, codes, &[first, second]).expect(rt, "memory for a plan");
    let None = first_clash(codes, &plan) else {
        panic!(rt; "a clash")
    };
    let None = first_met(codes, &plan) else {
        panic!(rt; "a piece is met")
    };
    plan
}
