//! Stored boxes that contain a given one.
ghost use Rattle.std.specs.Prelude.{length, MatchOption};
ghost use Rattle.nogood_store.specs.Containers.{IsFirstContainer, NoneContains};
ghost use Rattle.plan_rule.specs.Yards.{choices};

use crate::Nogood;
use code_table::Codes;
use plan_rule::PlanBox;

/// The first box that contains this one; None exactly where none does.
pub(crate) fn first_container<'a>(
    codes: &Codes,
    list: &'a [Nogood],
    part: &PlanBox,
) -> Option<&'a Nogood>
    ensures { MatchOption result
        (NoneContains (choices codes.now) list.now part.now (length list.now))
        (λ n. IsFirstContainer (choices codes.now) list.now part.now n.now) }
{
    for place in 0..list.len() {
        if list[place].part.contains(codes, part) {
            return Some(&list[place]);
        }
    }
    None
}
