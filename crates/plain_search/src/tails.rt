//! What the last blocks cost at least.
ghost use Rattle.std.specs.Prelude.{IfOk, MatchOption};
ghost use Rattle.plan_rule.specs.Yards.{choices};
ghost use Rattle.plain_search.specs.Fronts.{AreTails, IsBare};

use code_table::Codes;
use plan_rule::block_count;
use shape_exact::NoMemory;
use std::alloc::Global;

/// At k, a number that the last k blocks cost at least; None where some block has no code. It is the sum of their least
/// own costs, and the contract says no more than that it is a bound.
pub fn tails(alloc: Global, codes: &Codes) -> Result<Option<Vec<u32>>, NoMemory>
    ensures { IfOk result
        (λ found. MatchOption found (IsBare (choices codes.now)) (λ list. AreTails (choices codes.now) list.items)) }
{
    let blocks = block_count(codes);
    let mut list = Vec::new(alloc);
    let mut sum = 0;
    list.push(sum)?;
    for k in 0..blocks {
        match codes.least_cost(blocks - 1 - k) {
            Some(least) => sum += least,
            None => return Ok(None),
        }
        list.push(sum)?;
    }
    Ok(Some(list))
}
