//! Walks over a block's codes, beside spans of codes.
ghost use Rattle.std.specs.Prelude.{◌≡◌, ◌+◌, ◌^◌, ◌<◌, ◌≤◌, ◌⊎◌, ℕ, ◌↔◌, All, IsTrue, length};
ghost use Rattle.std.specs.List.Sorted.{IsNonDecreasingBy};
ghost use Rattle.code_table.specs.Placements.{placements};
ghost use Rattle.code_table.specs.Stretches.{IsStretch};
ghost use Rattle.plan_rule.specs.Choices.{blocks};
ghost use Rattle.plan_rule.specs.Yards.{choices};
ghost use Rattle.log_checker.specs.ExactBlocks.{IsStanding};
ghost use Rattle.log_checker.specs.Masks.{AreTold, IsPart};
ghost use Rattle.log_checker.specs.NearPieces.{AreNear};
ghost use Rattle.log_checker.specs.Spans.{InOne};
ghost use Rattle.log_checker.specs.Walks.{ArePassed, IsHindered};

use crate::exact::Exact;
use crate::mask::Masks;
use crate::near::{meets_one, pieces_near};
use crate::part::Part;
use crate::span::Span;
use code_table::{Codes, Stretch};

/// How far a walk has come: a code, and how many spans end at it or before it.
#[derive(Clone, Copy)]
pub(crate) struct Walk {
    pub passed: usize,
    pub code: u32,
}

/// Whether the block clashes with an exact block at a code of the part, or meets a piece there.
fn is_hindered(
    codes: &Codes,
    block: u8,
    stretch: Stretch,
    part: Part,
    pieces: &[u8],
    exacts: &[Exact],
    code: u32,
) -> bool
    requires block { block < length codes.now.blocks }
    requires stretch { IsStretch (placements codes.now block) stretch }
    requires part { IsPart codes.now exacts.now block stretch part }
    requires pieces { AreNear codes.now stretch.place pieces.now }
    requires from { part.lo ≤ code }
    requires to { code < part.hi }
    ensures { IsTrue result ↔ IsHindered codes.now exacts.now block code }
{
    if part.has(code) {
        return true;
    }
    if pieces.is_empty() {
        return false;
    }
    let place = codes.place_in(block, stretch, code);
    meets_one(codes, pieces, block, place)
}

impl Walk {
    /// On to the first code, from this one and from `from` on, that is in none of the spans.
    pub(crate) fn on_from(self, from: u32, spans: &[Span]) -> Walk
        requires ascending { IsNonDecreasingBy (λ s. s.lo) spans.now }
        requires within { self.passed ≤ length spans.now }
        requires passed { ArePassed spans.now self.passed self.code }
        ensures within { result.passed ≤ length spans.now }
        ensures passed { ArePassed spans.now result.passed result.code }
        ensures forward { self.code ≤ result.code }
        ensures from { from ≤ result.code }
        ensures skipped { (k : ℕ) → self.code ≤ k → from ≤ k → k < result.code → InOne spans.now k }
        ensures left { InOne spans.now result.code → ⊥ }
    {
        let mut passed = self.passed;
        let mut code = self.code.max(from);
        while passed < spans.len() && spans[passed].lo <= code {
            code = code.max(spans[passed].hi);
            passed += 1;
        }
        Walk { passed, code }
    }

    /// On to the first code, from this one on, that is in no span and where nothing hinders the block: it clashes with no
    /// exact block and meets no piece. Codes from `to` on are not asked.
    pub(crate) fn to_clear(
        self,
        codes: &Codes,
        masks: &mut Masks,
        block: u8,
        stretch: Stretch,
        to: u32,
        exacts: &[Exact],
        spans: &[Span],
    ) -> Walk
        requires told { AreTold codes.now masks.old }
        requires block { block < length codes.now.blocks }
        requires stretch { IsStretch (placements codes.now block) stretch }
        requires from { stretch.lo ≤ self.code }
        requires to { to ≤ stretch.hi }
        requires few { length exacts.now ≤ 32 }
        requires standing { All (IsStanding codes.now) exacts.now }
        requires ascending { IsNonDecreasingBy (λ s. s.lo) spans.now }
        requires within { self.passed ≤ length spans.now }
        requires passed { ArePassed spans.now self.passed self.code }
        requires left { InOne spans.now self.code → ⊥ }
        ensures within { result.passed ≤ length spans.now }
        ensures passed { ArePassed spans.now result.passed result.code }
        ensures forward { self.code ≤ result.code }
        ensures skipped { (k : ℕ) → self.code ≤ k → k < result.code
            → InOne spans.now k ⊎ IsHindered codes.now exacts.now block k }
        ensures left { InOne spans.now result.code → ⊥ }
        ensures clear { result.code < to → IsHindered codes.now exacts.now block result.code → ⊥ }
        ensures told { AreTold codes.now masks.new }
    {
        if self.code >= to {
            return self;
        }
        let pieces = pieces_near(codes, stretch.place);
        let mut walk = self;
        while walk.code < to {
            let part = masks.part(codes, block, stretch, walk.code, exacts);
            let end = part.hi.min(to);
            walk = walk.on_in(
                codes,
                block,
                stretch,
                part,
                end,
                pieces.as_slice(),
                exacts,
                spans,
            );
            if walk.code < end {
                return walk;
            }
        }
        walk
    }

    /// The same in a part of the stretch, beside the pieces that are near.
    fn on_in(
        self,
        codes: &Codes,
        block: u8,
        stretch: Stretch,
        part: Part,
        to: u32,
        pieces: &[u8],
        exacts: &[Exact],
        spans: &[Span],
    ) -> Walk
        requires block { block < length codes.now.blocks }
        requires stretch { IsStretch (placements codes.now block) stretch }
        requires part { IsPart codes.now exacts.now block stretch part }
        requires pieces { AreNear codes.now stretch.place pieces.now }
        requires from { part.lo ≤ self.code }
        requires to { to ≤ part.hi }
        requires ascending { IsNonDecreasingBy (λ s. s.lo) spans.now }
        requires within { self.passed ≤ length spans.now }
        requires passed { ArePassed spans.now self.passed self.code }
        requires left { InOne spans.now self.code → ⊥ }
        ensures within { result.passed ≤ length spans.now }
        ensures passed { ArePassed spans.now result.passed result.code }
        ensures forward { self.code ≤ result.code }
        ensures skipped { (k : ℕ) → self.code ≤ k → k < result.code
            → InOne spans.now k ⊎ IsHindered codes.now exacts.now block k }
        ensures left { InOne spans.now result.code → ⊥ }
        ensures clear { result.code < to → IsHindered codes.now exacts.now block result.code → ⊥ }
    {
        let mut walk = self;
        while walk.code < to {
            if !is_hindered(codes, block, stretch, part, pieces, exacts, walk.code) {
                return walk;
            }
            walk = walk.on_from(walk.code + 1, spans);
        }
        walk
    }
}
