//! Two callers, as docs/CALLING.md shows them: from a file to the codes of its yard, and from a log to what it shows.
ghost use Rattle.std.specs.Prelude.{◌≡◌, Some, true, IfOk};
ghost use Rattle.plan_rule.specs.Plans.{IsBest, IsPlan};
ghost use Rattle.plan_rule.specs.Yards.{choices};
ghost use Rattle.yard_file.specs.Reads.{yard_of, Gives};

use code_table::Codes;
use log_checker::{Verdict, check};
use plan_rule::Plan;
use refutation_log::Log;
use shape_exact::NoMemory;
use std::alloc::Global;
use yard_file::{YardFault, read_yard};

/// The codes of the yard that a file's bytes spell, or why the file is refused.
pub fn codes_of_file(alloc: Global, bytes: &[u8]) -> Result<Codes, YardFault>
    ensures { Gives result (yard_of bytes.now) }
{
    let yard = read_yard(alloc, bytes)?;
    match Codes::new(alloc, &yard) {
        Ok(codes) => Ok(codes),
        Err(NoMemory) => Err(YardFault::Memory),
    }
}

/// Whether the log shows that the plan is the best of its yard.
pub fn is_shown_best(alloc: Global, codes: &Codes, plan: &Plan, log: &Log) -> Result<bool, NoMemory>
    requires { IsPlan (choices codes.now) plan.now }
    ensures { IfOk result (λ shown. shown ≡ true → IsBest (choices codes.now) (Some plan.now)) }
{
    match check(alloc, codes, Some(plan), log)? {
        Verdict::Accepted => Ok(true),
        Verdict::Refused(_) => Ok(false),
    }
}
