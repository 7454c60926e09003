//! The best of some list schedules of a region.
ghost use Rattle.std.specs.Prelude.{◌≡◌, ◌≤◌, length, IfOk, IfSome};
ghost use Rattle.plan_rule.specs.Plans.{IsFeasible};
ghost use Rattle.plan_rule.specs.Paths.{IsInRegion};
ghost use Rattle.plan_rule.specs.Regions.{IsRegionPart};
ghost use Rattle.plan_rule.specs.Yards.{choices};

use crate::draws::Draws;
use crate::guard::{feasible_plan, guarded};
use crate::orders::{Rule, moved, ordered};
use crate::schedule::{Schedule, clear, put_all};
use code_table::Codes;
use plan_rule::{Job, Literal, Plan, block_count};
use shape_exact::NoMemory;
use std::alloc::Global;
use tardiness_bounds::{Frontier, YardTables};

/// The best schedule so far, and the order that was moved last.
#[derive(Drop)]
struct Hand {
    best: Schedule,
    order: Vec<u8>,
}

/// The order that is tried next: by a rule at first, and then a move of the order in hand.
fn next_order(
    alloc: Global,
    codes: &Codes,
    first: u8,
    attempt: u32,
    hand: &Option<Hand>,
    draws: &mut Draws,
) -> Result<Vec<u8>, NoMemory> {
    let rule = match attempt {
        0 => Rule::File,
        1 => Rule::Due,
        2 => Rule::Weight,
        _ => Rule::Work,
    };
    if attempt < 4 {
        return ordered(alloc, codes, first, rule);
    }
    match hand {
        Some(hand) => moved(alloc, hand.order.as_slice(), draws),
        None => {
            let order = ordered(alloc, codes, first, Rule::Due)?;
            moved(alloc, order.as_slice(), draws)
        }
    }
}

/// Whether the first schedule costs less, or as much and its codes are lexicographically smaller.
fn is_better(new: &Schedule, old: &Schedule) -> bool {
    if new.cost != old.cost {
        return new.cost < old.cost;
    }
    for block in 0..32 {
        if new.codes[block] != old.codes[block] {
            return new.codes[block] < old.codes[block];
        }
    }
    false
}

/// The hand with a schedule more, which costs no more than the one in hand.
fn taken(hand: Option<Hand>, made: Schedule, order: Vec<u8>) -> Hand {
    match hand {
        Some(old) => {
            let best = if is_better(&made, &old.best) {
                made
            } else {
                old.best
            };
            Hand { best, order }
        }
        None => Hand { best: made, order },
    }
}

/// The best of `tries` list schedules of a region whose cost is at most `most`; the seed draws the moves of orders. None
/// where none of them costs so little.
fn best_schedule(
    alloc: Global,
    codes: &Codes,
    tables: &YardTables<'_>,
    front: &[u32],
    range: Literal,
    most: u32,
    tries: u32,
    seed: u32,
) -> Result<Option<Schedule>, NoMemory>
    requires tables { tables.now.yard ≡ codes.now }
    requires front { length front.now ≤ 32 }
{
    let first = front.len() as u8;
    let mut frontier = Frontier::new(alloc, tables)?;
    let mut draws = Draws::of_seed(seed);
    let mut hand = None;
    let mut most = most;
    for attempt in 0..tries {
        let order = next_order(alloc, codes, first, attempt, &hand, &mut draws)?;
        clear(&mut frontier);
        if let Some(made) = put_all(&mut frontier, front, order.as_slice(), range, most) {
            if made.cost <= most {
                most = made.cost;
                hand = Some(taken(hand, made, order));
            }
        }
    }
    match hand {
        Some(hand) => Ok(Some(hand.best)),
        None => Ok(None),
    }
}

/// A feasible plan of a region to begin a search with: the best of `tries` list schedules whose cost is at most `most`.
/// None where none of them makes such a plan.
pub fn start_plan(
    alloc: Global,
    codes: &Codes,
    tables: &YardTables<'_>,
    job: Job,
    front: &[u32],
    lo: u32,
    hi: u32,
    most: u32,
    tries: u32,
) -> Result<Option<Plan>, NoMemory>
    requires tables { tables.now.yard ≡ codes.now }
    requires part { IsRegionPart (choices codes.now) job front.now lo hi }
    ensures { IfOk result (λ o. IfSome o (λ p. IsFeasible (choices codes.now) p × IsInRegion (choices codes.now) job p)) }
{
    if front.len() > 32 {
        return Ok(None);
    }
    let range = Literal {
        block: front.len() as u8,
        lo,
        hi,
    };
    let found = best_schedule(alloc, codes, tables, front, range, most, tries, 0)?;
    let Some(best) = found else {
        return Ok(None);
    };
    let count = usize::from(block_count(codes));
    guarded(alloc, codes, job, front, lo, hi, &best.codes[..count])
}

/// No block has this number.
const NO_BLOCK: u8 = 32;

/// A feasible plan of the yard to begin with: the best of `tries` list schedules, of which the seed draws the moves. None
/// where none of them makes a plan.
pub fn yard_plan(
    alloc: Global,
    codes: &Codes,
    tables: &YardTables<'_>,
    tries: u32,
    seed: u32,
) -> Result<Option<Plan>, NoMemory>
    requires { tables.now.yard ≡ codes.now }
    ensures { IfOk result (λ o. IfSome o (λ p. IsFeasible (choices codes.now) p)) }
{
    let all = Literal {
        block: NO_BLOCK,
        lo: 0,
        hi: 0,
    };
    let found = best_schedule(alloc, codes, tables, &[], all, u32::MAX, tries, seed)?;
    let Some(best) = found else {
        return Ok(None);
    };
    let count = usize::from(block_count(codes));
    feasible_plan(alloc, codes, &best.codes[..count])
}
