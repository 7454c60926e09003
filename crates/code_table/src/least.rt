//! The least cost of a block's placements.
ghost use Rattle.std.specs.Prelude.{◌≡◌, ℕ, ◌≤◌, ◌<◌, length, map};
ghost use Rattle.shape_exact.specs.Yards.{IsYard, IsBlock};
ghost use Rattle.plate_calendar.specs.Calendars.{open_days};
ghost use Rattle.code_table.specs.Costs.{IsLeastCost, lesser};
ghost use Rattle.code_table.specs.Placements.{placements_of};
ghost use Rattle.code_table.specs.Stands.{stands, nth_stand};
ghost use Rattle.code_table.specs.Tables.{IsSums};

use crate::cost::cost_on;
use crate::count::stand_end;
use crate::stand::{nth_stand, stands};
use plate_calendar::Calendar;
use shape_exact::{Block, Yard};

/// The less of two costs, where there are two.
fn lesser(a: Option<u32>, b: Option<u32>) -> Option<u32>
    ensures { result ≡ lesser a b }
{
    match (a, b) {
        (None, b) => b,
        (Some(a), None) => Some(a),
        (Some(a), Some(b)) => Some(a.min(b)),
    }
}

/// The cost of the placements that have the k-th stand, which share their end. None where there are none.
fn stand_cost(
    yard: &Yard,
    calendars: &[Calendar],
    block: &Block,
    sums: &[u32],
    k: u32,
) -> Option<u32>
    requires calendars { calendars.now ≡ map (λ p. open_days yard.now.days p.closed) yard.now.plates }
    requires block { IsBlock block.now }
    requires sums { IsSums yard.now block.now sums.now }
    requires k { k < stands yard.now }
    ensures { IsLeastCost block.now (nth_stand yard.now block.now k) result }
{
    if sums[k as usize] == sums[k as usize + 1] {
        return None;
    }
    let at = nth_stand(yard, k);
    let Some(end) = stand_end(yard, calendars, block, at) else {
        return None;
    };
    Some(cost_on(block, end))
}

/// The least cost of the block's placements. None where it has none.
pub(crate) fn least_of(
    yard: &Yard,
    calendars: &[Calendar],
    block: &Block,
    sums: &[u32],
) -> Option<u32>
    requires calendars { calendars.now ≡ map (λ p. open_days yard.now.days p.closed) yard.now.plates }
    requires block { IsBlock block.now }
    requires sums { IsSums yard.now block.now sums.now }
    ensures { IsLeastCost block.now (placements_of yard.now block.now) result }
{
    let mut least = None;
    for k in 0..stands(yard) {
        least = lesser(least, stand_cost(yard, calendars, block, sums, k));
    }
    least
}
