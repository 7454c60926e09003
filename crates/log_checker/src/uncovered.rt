//! The first code of a range that nothing covers.
ghost use Rattle.std.specs.Prelude.{◌<◌, ◌≤◌, All, length};
ghost use Rattle.std.specs.List.Sorted.{IsNonDecreasingBy};
ghost use Rattle.plan_rule.specs.Choices.{blocks, count};
ghost use Rattle.plan_rule.specs.Yards.{choices};
ghost use Rattle.log_checker.specs.ExactBlocks.{IsStanding};
ghost use Rattle.log_checker.specs.Masks.{AreTold};
ghost use Rattle.log_checker.specs.Walks.{IsSettled, TellsFirstWithout};

use crate::block::cost_at;
use crate::cut::Cut;
use crate::exact::Exact;
use crate::mask::Masks;
use crate::span::Span;
use crate::walk::Walk;
use code_table::Codes;

/// The first code of the range whose placement clashes with no exact block and meets no piece, that the cut does not take
/// and that is in no span; None where there is none. The codes of one start, plate and turn have one cost: those that
/// the cut takes are passed at once.
#[tactic(auto, using(plan_rule::proofs::CountLaws::counts))]
pub(crate) fn first_uncovered(
    codes: &Codes,
    masks: &mut Masks,
    block: u8,
    lo: u32,
    hi: u32,
    cut: Cut,
    exacts: &[Exact],
    spans: &[Span],
) -> Option<u32>
    requires told { AreTold codes.now masks.old }
    requires block { block < blocks (choices codes.now) }
    requires range { hi ≤ count (choices codes.now) block }
    requires few { length exacts.now ≤ 32 }
    requires standing { All (IsStanding codes.now) exacts.now }
    requires ascending { IsNonDecreasingBy (λ s. s.lo) spans.now }
    ensures value { TellsFirstWithout (IsSettled codes.now block cut exacts.now spans.now) lo hi result }
    ensures told { AreTold codes.now masks.new }
{
    let start = Walk {
        passed: 0,
        code: lo,
    };
    let mut walk = start.on_from(lo, spans);
    while walk.code < hi {
        let stretch = codes.stretch(block, walk.code);
        if cut.takes_onward(codes, block, walk.code, stretch.place.start) {
            return None;
        }
        let end = stretch.hi.min(hi);
        let kept = cut.keeps(cost_at(codes, block, stretch.place.end), end);
        walk = walk.to_clear(codes, masks, block, stretch, kept, exacts, spans);
        if walk.code < kept {
            return Some(walk.code);
        }
        walk = walk.on_from(end, spans);
    }
    None
}
