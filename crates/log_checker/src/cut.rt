//! Which codes of a block the base refutes beside a side.
ghost use Rattle.std.specs.Prelude.{◌≡◌, ◌↔◌, ◌≤◌, ◌<◌, ◌-◌, ◌+◌, ◌*◌, true, ℕ, IsTrue, Some, slice_get, length};
ghost use Rattle.shape_exact.specs.Yards.{IsYard};
ghost use Rattle.shape_exact.specs.declared.block.Block.{Block};
ghost use Rattle.code_table.specs.declared.placement.Placement.{Placement};
ghost use Rattle.code_table.specs.Placements.{placements};
ghost use Rattle.plan_rule.specs.Boxes.{IsBox, LeavesFree};
ghost use Rattle.plan_rule.specs.Choices.{IsCode, blocks};
ghost use Rattle.plan_rule.specs.Yards.{choices};
ghost use Rattle.log_checker.specs.Claims.{plan_of};
ghost use Rattle.log_checker.specs.Cuts.{IsCut, Takes};

use crate::block::block_at;
use crate::judge::Judge;
use crate::rest::rest_of;
use crate::ties::first_tie;
use code_table::Codes;
use plan_rule::PlanBox;

/// The codes of a block that the base refutes, by their own cost.
#[derive(Clone, Copy, PartialEq, Eq, Debug)]
pub(crate) enum Cut {
    /// Another block has no code, so the base is Never; or the other blocks alone cost more than the plan.
    Every,
    /// No plan is claimed, and the base is a number.
    Nothing,
    /// The codes that cost more than the first number and, from the second number on, those that cost as much.
    Above(u32, u32),
}

/// The least that work on a block may cost that begins on a day: where no day is closed.
pub(crate) fn least_from(codes: &Codes, block: u8, start: u16) -> u32
    requires { block < length codes.now.blocks }
    ensures value { (b : Block) → slice_get codes.now.blocks block ≡ Some b
        → result ≡ b.weight * (start + b.duration - 1 - b.due) }
    ensures limits { IsYard codes.now }
{
    let block = block_at(codes, block);
    let end = u32::from(start) + u32::from(block.duration) - 1;
    u32::from(block.weight) * end.saturating_sub(u32::from(block.due))
}

impl Cut {
    /// Up to which code, and without it, the cut leaves the codes below `end` that have this cost; from there on it takes
    /// them.
    pub(crate) fn keeps(self, cost: u32, end: u32) -> u32
        ensures within { result ≤ end }
        ensures taken { (code : ℕ) → code < end → (result ≤ code) ↔ Takes self cost code }
    {
        match self {
            Cut::Every => 0,
            Cut::Nothing => end,
            Cut::Above(limit, tie) => {
                if cost < limit {
                    end
                } else if cost == limit {
                    tie.min(end)
                } else {
                    0
                }
            }
        }
    }

    /// Whether the start of this code alone shows that the cut takes it and each later one: none ends sooner than its
    /// start allows.
    #[tactic(auto, using(plan_rule::proofs::CountLaws::counts))]
    pub(crate) fn takes_onward(self, codes: &Codes, block: u8, code: u32, start: u16) -> bool
        requires block { block < blocks (choices codes.now) }
        requires code { IsCode (choices codes.now) block code }
        requires start { (p : Placement) → slice_get (placements codes.now block) code ≡ Some p → p.start ≡ start }
        ensures { result ≡ true → (k : ℕ) → code ≤ k → IsCode (choices codes.now) block k
            → Takes self ((choices codes.now).cost block k) k }
    {
        codes.codes_ascend(block);
        match self {
            Cut::Every => true,
            Cut::Nothing => false,
            Cut::Above(limit, _) => limit < least_from(codes, block, start),
        }
    }
}

/// Which codes of the block the base refutes beside the side, against the claim.
pub(crate) fn cut_of(judge: &Judge<'_>, side: &PlanBox, block: u8) -> Cut
    requires side { IsBox (choices judge.now.codes.now) side.now }
    requires block { block < blocks (choices judge.now.codes.now) }
    requires free { LeavesFree side.now block }
    ensures { IsCut (choices judge.now.codes.now) (plan_of judge.now.claim) side.now block result }
{
    let Some(rest) = rest_of(judge.codes, side, block) else {
        return Cut::Every;
    };
    let Some(claim) = judge.claim else {
        return Cut::Nothing;
    };
    if claim.total < rest {
        return Cut::Every;
    }
    Cut::Above(
        claim.total - rest,
        first_tie(judge.codes, claim.plan, side, block),
    )
}
