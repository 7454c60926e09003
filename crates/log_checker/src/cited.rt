//! With which codes of a block earlier records cover a side.
ghost use Rattle.std.specs.Prelude.{◌<◌, ◌≤◌, ◌↔◌, ◌⊎◌, ℕ, All, IfOk, IsTrue, OnOk, length, slice_index_or};
ghost use Rattle.std.specs.List.{AllWithin};
ghost use Rattle.std.specs.List.Sorted.{IsNonDecreasingBy, IsPermutation};
ghost use Rattle.plan_rule.specs.declared.literal.Literal.{Literal};
ghost use Rattle.plan_rule.specs.Choices.{IsCode, blocks};
ghost use Rattle.plan_rule.specs.Boxes.{AreAmong, IsAscending, LeavesFree, with_literal};
ghost use Rattle.plan_rule.specs.Yards.{choices};
ghost use Rattle.refutation_log.specs.Steps.{result_of};
ghost use Rattle.log_checker.specs.Forms.{HasForm};
ghost use Rattle.log_checker.specs.Spans.{AreCited, Has, HaveCode, HoldOthers, HoldsOne, InOne, IsSpanOf, IsWithin};

use crate::form::count_of;
use crate::span::Span;
use code_table::Codes;
use plan_rule::{Literal, PlanBox};
use refutation_log::{Cites, Record};
use shape_exact::NoMemory;
use std::alloc::Global;

/// The place of the first literal, from a place on, whose block is not below this one.
fn place_from(list: &[Literal], from: usize, block: u8) -> usize
    requires { from ≤ length list.now }
    ensures within { (from ≤ result) × (result ≤ length list.now) }
    ensures before { AllWithin (λ l. l.block < block) list.now from result }
    ensures at { (d : Literal) → result < length list.now → block ≤ (slice_index_or list.now result d).block }
{
    let mut at = from;
    while at < list.len() && list[at].block < block {
        at += 1;
    }
    at
}

/// Whether the literal is whole or holds one of the others; `at` is the place of the first of them that is not below its
/// block.
fn holds_at(codes: &Codes, l: Literal, others: &[Literal], at: usize) -> bool
    requires block { l.block < blocks (choices codes.now) }
    requires ascending { IsAscending others.now }
    requires before { AllWithin (λ m. m.block < l.block) others.now 0 at }
    requires from { (d : Literal) → at < length others.now → l.block ≤ (slice_index_or others.now at d).block }
    ensures { IsTrue result ↔ HoldsOne (choices codes.now) others.now l }
{
    if at < others.len() && l.takes(others[at]) {
        return true;
    }
    l.is_whole(codes)
}

/// Whether the literal is whole or holds one of the side.
fn holds_one(codes: &Codes, l: Literal, side: &PlanBox) -> bool
    requires { l.block < blocks (choices codes.now) }
    ensures { IsTrue result ↔ HoldsOne (choices codes.now) side.now l }
{
    let others = side.literals();
    holds_at(codes, l, others, place_from(others, 0, l.block))
}

/// Whether each literal that is not on the block is whole or holds one of the side.
fn holds_others(codes: &Codes, outer: &PlanBox, side: &PlanBox, block: u8) -> bool
    requires { AreAmong (blocks (choices codes.now)) outer.now }
    ensures { IsTrue result ↔ HoldOthers (choices codes.now) side.now block outer.now }
{
    let others = side.literals();
    let mut at = 0;
    for l in outer.literals() {
        at = place_from(others, at, l.block);
        if l.block != block && !holds_at(codes, *l, others, at) {
            return false;
        }
    }
    true
}

/// The codes that the literal on the block has; each code where there is no such literal.
fn span_on(codes: &Codes, outer: &PlanBox, block: u8) -> Span
    requires { block < blocks (choices codes.now) }
    ensures { (code : ℕ) → IsCode (choices codes.now) block code
        → IsWithin result code ↔ HaveCode outer.now block code }
{
    for l in outer.literals() {
        if l.block == block {
            return Span { lo: l.lo, hi: l.hi };
        }
    }
    Span {
        lo: 0,
        hi: count_of(codes, block),
    }
}

/// The codes of the block with which the box covers the side.
fn span_of(codes: &Codes, outer: &PlanBox, side: &PlanBox, block: u8) -> Option<Span>
    requires outer { AreAmong (blocks (choices codes.now)) outer.now }
    requires block { block < blocks (choices codes.now) }
    requires free { LeavesFree side.now block }
    ensures { IsSpanOf (choices codes.now) outer.now side.now block result }
{
    if !holds_others(codes, outer, side, block) {
        return None;
    }
    Some(span_on(codes, outer, block))
}

/// The codes of the block with which the box with a literal more covers the side.
fn span_with(
    codes: &Codes,
    outer: &PlanBox,
    own: Literal,
    side: &PlanBox,
    block: u8,
) -> Option<Span>
    requires outer { AreAmong (blocks (choices codes.now)) outer.now }
    requires own { own.block < blocks (choices codes.now) }
    requires left { LeavesFree outer.now own.block }
    requires block { block < blocks (choices codes.now) }
    requires free { LeavesFree side.now block }
    ensures { IsSpanOf (choices codes.now) (with_literal outer.now own) side.now block result }
{
    if own.block == block {
        if !holds_others(codes, outer, side, block) {
            return None;
        }
        return Some(Span {
            lo: own.lo,
            hi: own.hi,
        });
    }
    if !holds_one(codes, own, side) {
        return None;
    }
    span_of(codes, outer, side, block)
}

/// The codes of the block for which the record's box covers the side with that code; None where there are none.
pub(crate) fn covered(codes: &Codes, entry: &Record, side: &PlanBox, block: u8) -> Option<Span>
    requires entry { HasForm (choices codes.now) entry.now }
    requires block { block < blocks (choices codes.now) }
    requires free { LeavesFree side.now block }
    ensures { IsSpanOf (choices codes.now) (result_of (choices codes.now) entry.now) side.now block result }
{
    match entry {
        Record::Branch {
            block: of,
            lo,
            hi,
            side: outer,
            ..
        } => {
            let own = Literal {
                block: *of,
                lo: *lo,
                hi: *hi,
            };
            span_with(codes, outer, own, side, block)
        }
        Record::Fit { side: outer } => span_of(codes, outer, side, block),
        Record::Energy { side: outer, .. } => span_of(codes, outer, side, block),
    }
}

/// Adds the span, if there is one.
fn add_span(spans: &mut Vec<Span>, span: Option<Span>) -> Result<(), NoMemory>
    ensures { OnOk result ((code : ℕ) → InOne spans.new.items code ↔ (InOne spans.old.items code ⊎ Has span code)) }
{
    if let Some(span) = span {
        spans.push(span)?;
    }
    Ok(())
}

/// The same spans, by their first codes.
fn in_order(mut spans: Vec<Span>) -> Vec<Span>
    ensures same { IsPermutation spans.items result.items }
    ensures ascending { IsNonDecreasingBy (λ s. s.lo) result.items }
{
    spans.sort_unstable_by_key(|s| s.lo);
    spans
}

/// The codes of the block for which some cited record's box covers the side with that code: spans, by their first
/// codes.
pub(crate) fn spans_of(
    alloc: Global,
    codes: &Codes,
    earlier: &[Record],
    cites: &Cites,
    side: &PlanBox,
    block: u8,
) -> Result<Vec<Span>, NoMemory>
    requires earlier { All (HasForm (choices codes.now)) earlier.now }
    requires cites { All (λ k. k < length earlier.now) cites.now }
    requires block { block < blocks (choices codes.now) }
    requires free { LeavesFree side.now block }
    ensures cited { IfOk result
        (λ spans. AreCited (choices codes.now) earlier.now cites.now side.now block spans.items) }
    ensures ascending { IfOk result (λ spans. IsNonDecreasingBy (λ s. s.lo) spans.items) }
{
    let mut spans = Vec::new(alloc);
    for cite in cites.list() {
        let entry = &earlier[*cite as usize];
        add_span(&mut spans, covered(codes, entry, side, block))?;
    }
    Ok(in_order(spans))
}
