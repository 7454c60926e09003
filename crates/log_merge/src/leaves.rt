//! The log of all, from the logs of leaves in any order.
ghost use Rattle.std.specs.Prelude.{◌≡◌, ◌<◌, ℕ, List, Option, MatchOption, IfOk};
ghost use Rattle.plan_rule.specs.Choices.{blocks, count};
ghost use Rattle.plan_rule.specs.Fronts.{HasCodes};
ghost use Rattle.plan_rule.specs.Plans.{IsAnswer};
ghost use Rattle.plan_rule.specs.Yards.{choices};
ghost use Rattle.refutation_log.specs.Logs.{AreSteps};
ghost use Rattle.refutation_log.specs.Steps.{IsAccepted};
ghost use Rattle.log_merge.specs.Leaves.{AreLeavesOf};

use crate::{Leaf, close_empty, merge_all};
use branch_kernel::count_of;
use code_table::Codes;
use plan_rule::block_count;
use refutation_log::Log;
use shape_exact::NoMemory;
use std::alloc::Global;

/// The first block without a code.
fn first_without_codes(codes: &Codes) -> Option<u8>
    ensures { MatchOption result (HasCodes (choices codes.now))
        (λ b. (b < blocks (choices codes.now)) × (count (choices codes.now) b ≡ 0)) }
{
    for block in 0..block_count(codes) {
        if count_of(codes, block) == 0 {
            return Some(block);
        }
    }
    None
}

/// Merges the records of leaves that tile the path numbers, in whatever order they stand, and closes the log. It is then
/// accepted for each answer that may stand and against which its old records are steps.
pub fn merge_leaves(
    alloc: Global,
    codes: &Codes,
    leaves: Vec<Leaf>,
    log: &mut Log,
) -> Result<(), NoMemory>
    requires { AreLeavesOf (choices codes.now) log.old leaves.items }
    ensures { IfOk result (λ _. (t : Option (List ℕ)) → IsAnswer (choices codes.now) t
        → AreSteps (choices codes.now) t log.old → IsAccepted (choices codes.now) t log.new) }
{
    if let Some(block) = first_without_codes(codes) {
        return close_empty(alloc, codes, block, log);
    }
    let mut ordered = leaves;
    ordered.sort_unstable_by_key(|leaf| leaf.job.front);
    merge_all(alloc, codes, ordered.as_slice(), log)
}
