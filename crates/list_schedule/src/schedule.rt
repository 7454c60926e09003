//! One list schedule.
ghost use Rattle.std.specs.Prelude.{◌≤◌, length};
ghost use Rattle.tardiness_bounds.specs.Stacks.{CanPush};

use plan_rule::Literal;
use tardiness_bounds::Frontier;

/// The codes of the blocks so far, `codes[i]` of block `i`, and what they cost.
#[derive(Clone, Copy, Drop)]
pub struct Schedule {
    pub codes: [u32; 32],
    pub cost: u32,
}

/// A block's costs fall at most so often as its codes are walked up: one code a start makes a yard's most.
const MOST_FALLS: u32 = 400;

/// What a code costs.
fn cost_of(frontier: &Frontier<'_>, block: u8, code: u32) -> u32
    requires { CanPush frontier.now block code }
{
    frontier.codes().own_cost(block, code)
}

/// The first free code of least cost of a block, within its range, where one costs at most so much.
fn cheapest(frontier: &Frontier<'_>, block: u8, range: Literal, most: u32) -> Option<u32> {
    if !frontier.can_push(block, 0) {
        return None;
    }
    let floor = frontier.least(block)?;
    let (mut at, end) = if block == range.block {
        (range.lo, range.hi)
    } else {
        (0, u32::MAX)
    };
    let mut limit = if block == range.block {
        most
    } else {
        floor.min(most)
    };
    let mut found = None;
    for _ in 0..MOST_FALLS {
        let Some(code) = frontier.next_free(block, at, limit) else {
            return found;
        };
        if code >= end {
            return found;
        }
        if !frontier.can_push(block, code) {
            return found;
        }
        found = Some(code);
        let cost = cost_of(frontier, block, code);
        if cost <= floor {
            return found;
        }
        limit = cost - 1;
        at = code;
    }
    found
}

/// Puts the block at the code, where it may stand there.
fn place(frontier: &mut Frontier<'_>, made: &mut Schedule, block: u8, code: u32) -> Option<()> {
    if block >= 32 || !frontier.can_push(block, code) {
        return None;
    }
    let cost = cost_of(frontier, block, code);
    made.cost = made.cost.saturating_add(cost);
    made.codes[block as usize] = code;
    frontier.push(block, code);
    Some(())
}

/// Takes all blocks off again.
pub(crate) fn clear(frontier: &mut Frontier<'_>) {
    while frontier.len() > 0 {
        frontier.pop();
    }
}

/// The schedule that puts the first blocks at these codes, and then each block of the order at its first free code of
/// least cost. None where a block has none, or all would cost more than `most`.
pub(crate) fn put_all(
    frontier: &mut Frontier<'_>,
    front: &[u32],
    order: &[u8],
    range: Literal,
    most: u32,
) -> Option<Schedule>
    requires { length front.now ≤ 32 }
{
    let mut made = Schedule {
        codes: [0; 32],
        cost: 0,
    };
    for block in 0..front.len() {
        place(frontier, &mut made, block as u8, front[block])?;
    }
    for block in order {
        let left = most.saturating_sub(made.cost);
        let code = cheapest(frontier, *block, range, left)?;
        place(frontier, &mut made, *block, code)?;
    }
    Some(made)
}
