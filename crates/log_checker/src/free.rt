//! The codes of a block at which it clashes with no exact block and meets no piece.
ghost use Rattle.std.specs.Prelude.{◌≡◌, ◌≤◌, ◌<◌, All, Contains, length};
ghost use Rattle.code_table.specs.Placements.{placements};
ghost use Rattle.code_table.specs.Stretches.{IsStretch};
ghost use Rattle.plan_rule.specs.Choices.{blocks};
ghost use Rattle.plan_rule.specs.Yards.{choices};
ghost use Rattle.log_checker.specs.ExactBlocks.{IsStanding};
ghost use Rattle.log_checker.specs.Leasts.{IsLeastClear, IsLeastClearBelow, is_better};
ghost use Rattle.log_checker.specs.Masks.{AreTold};
ghost use Rattle.log_checker.specs.PassedCodes.{AreHinderedTo, ArePassed};

use crate::block::cost_at;
use crate::cut::least_from;
use crate::exact::Exact;
use crate::mask::Masks;
use crate::passed::Passed;
use crate::walk::Walk;
use code_table::{Codes, Stretch};

/// Whether a cost is at most the limit, and below the best one so far, if there is one.
fn is_better(cost: u32, best: Option<u32>, limit: u32) -> bool
    ensures { result ≡ is_better cost best limit }
{
    match best {
        Some(best) => cost < best,
        None => cost <= limit,
    }
}

/// The best cost so far, or that of the stretch's codes, where it is better and nothing hinders the block at one of them
/// from `from` on.
fn with_stretch(
    codes: &Codes,
    masks: &mut Masks,
    exacts: &[Exact],
    block: u8,
    stretch: Stretch,
    from: u32,
    limit: u32,
    best: Option<u32>,
) -> Option<u32>
    requires told { AreTold codes.now masks.old }
    requires block { block < blocks (choices codes.now) }
    requires stretch { IsStretch (placements codes.now block) stretch }
    requires end { stretch.place.end < codes.now.days }
    requires from { stretch.lo ≤ from }
    requires some { from < stretch.hi }
    requires few { length exacts.now ≤ 32 }
    requires standing { All (IsStanding codes.now) exacts.now }
    requires best { IsLeastClearBelow codes.now exacts.now block from limit best }
    ensures value { IsLeastClearBelow codes.now exacts.now block stretch.hi limit result }
    ensures told { AreTold codes.now masks.new }
{
    let cost = cost_at(codes, block, stretch.place.end);
    if !is_better(cost, best, limit) {
        return best;
    }
    let start = Walk {
        passed: 0,
        code: from,
    };
    let found = start.to_clear(codes, masks, block, stretch, stretch.hi, exacts, &[]);
    if found.code < stretch.hi {
        Some(cost)
    } else {
        best
    }
}

/// How many of the block's first codes are all hindered: those before the first one that is not, or before the first
/// stretch of codes that cost more than the limit.
#[tactic(auto, using(plan_rule::proofs::CountLaws::counts))]
pub(crate) fn first_clear(
    codes: &Codes,
    masks: &mut Masks,
    exacts: &[Exact],
    block: u8,
    limit: u32,
) -> u32
    requires told { AreTold codes.now masks.old }
    requires block { block < blocks (choices codes.now) }
    requires few { length exacts.now ≤ 32 }
    requires standing { All (IsStanding codes.now) exacts.now }
    ensures hindered { AreHinderedTo codes.now exacts.now block result }
    ensures told { AreTold codes.now masks.new }
{
    let count = codes.count(block);
    let mut code = 0;
    while code < count {
        let stretch = codes.stretch(block, code);
        if limit < cost_at(codes, block, stretch.place.end) {
            return code;
        }
        let start = Walk { passed: 0, code };
        let found = start.to_clear(codes, masks, block, stretch, stretch.hi, exacts, &[]);
        if found.code < stretch.hi {
            return found.code;
        }
        code = stretch.hi;
    }
    code
}

/// The least own cost, where it is at most the limit, of the codes at which the block clashes with no exact block and meets
/// no piece. The codes of one start, plate and turn have one cost, so that they are asked only where it is better, and
/// no further than to the first one. Those that
/// were found hindered before are passed at once. The walk ends where the block's least own cost, or the start that it has come to,
/// shows that no later code is better.
#[tactic(auto, using(plan_rule::proofs::CountLaws::counts))]
pub(crate) fn least_free(
    codes: &Codes,
    masks: &mut Masks,
    passed: &mut Passed,
    exacts: &[Exact],
    block: u8,
    limit: u32,
) -> Option<u32>
    requires told { AreTold codes.now masks.old }
    requires kept { ArePassed codes.now passed.old }
    requires among { All (Contains exacts.now) passed.old.exacts.items }
    requires block { block < blocks (choices codes.now) }
    requires few { length exacts.now ≤ 32 }
    requires standing { All (IsStanding codes.now) exacts.now }
    ensures value { IsLeastClear codes.now exacts.now block limit result }
    ensures told { AreTold codes.now masks.new }
    ensures kept { ArePassed codes.now passed.new }
    ensures among { All (Contains exacts.now) passed.new.exacts.items }
{
    codes.codes_ascend(block);
    let least = codes.least_cost(block)?;
    let count = codes.count(block);
    let mut best = None;
    let mut code = passed.count(codes, masks, exacts, block, limit);
    while code < count {
        let stretch = codes.stretch(block, code);
        let floor = least.max(least_from(codes, block, stretch.place.start));
        if !is_better(floor, best, limit) {
            return best;
        }
        best = with_stretch(codes, masks, exacts, block, stretch, code, limit, best);
        code = stretch.hi;
    }
    best
}
