//! In which order the segments of a range are settled.
ghost use Rattle.std.specs.Prelude.{◌≡◌, ◌<◌, ◌≤◌, All, Contains, IfOk, length, true};
ghost use Rattle.plan_rule.specs.declared.literal.Literal.{Literal};
ghost use Rattle.plan_rule.specs.Choices.{blocks};
ghost use Rattle.plan_rule.specs.Yards.{choices};
ghost use Rattle.branch_search.specs.Segments.{HaveAll, IsSegment};

use crate::Hints;
use crate::choose::slack_of;
use code_table::Codes;
use plan_rule::Literal;
use shape_exact::NoMemory;
use std::alloc::Global;
use tardiness_bounds::Frontier;

/// Segments of a range: first so many that need a box of their own, and then the others.
#[derive(Drop)]
pub(crate) struct Order {
    pub list: Vec<Literal>,
    pub first: usize,
}

/// A code of the range as a segment.
fn segment_at(range: Literal, code: u32) -> Literal
    requires low { range.lo ≤ code }
    requires high { code < range.hi }
    ensures segment { IsSegment range result }
    ensures from { result.lo ≤ code }
    ensures to { code < result.hi }
{
    Literal {
        block: range.block,
        lo: code,
        hi: code + 1,
    }
}

/// The codes of a range that are clear of the literals of the frontier and cost at most so much, ascending, each as a segment.
fn children_of(
    alloc: Global,
    front: &Frontier<'_>,
    range: Literal,
    most: u32,
) -> Result<Vec<Literal>, NoMemory>
    ensures { IfOk result (λ list. All (IsSegment range) list.items) }
{
    let mut list = Vec::new(alloc);
    if !front.can_push(range.block, range.lo) {
        return Ok(list);
    }
    for code in front.free_codes(range.block, range.lo, most) {
        if code >= range.hi {
            break;
        }
        if range.lo <= code {
            list.push(segment_at(range, code))?;
        }
    }
    Ok(list)
}

/// Whether the segment at a place of the list has the code.
fn stands_at(list: &[Literal], at: usize, code: u32) -> bool
    ensures within { result ≡ true → at < length list.now }
    ensures stands { result ≡ true
        → (segment : Literal) × Contains list.now segment × (segment.lo ≤ code) × (code < segment.hi) }
{
    at < list.len() && list[at].has(code)
}

/// Adds as segments those codes of the range that are not in the list, whose segments are single codes and ascend.
fn add_others(list: &mut Vec<Literal>, range: Literal) -> Result<(), NoMemory>
    ensures inside { IfOk result (λ _. All (IsSegment range) list.old.items → All (IsSegment range) list.new.items) }
    ensures each { IfOk result (λ _. HaveAll range list.new.items) }
{
    let mut at = 0;
    for code in range.lo..range.hi {
        if stands_at(list.as_slice(), at, code) {
            at += 1;
            continue;
        }
        list.push(segment_at(range, code))?;
    }
    Ok(())
}

/// The codes of the range, each as a segment: first those that are clear of the literals of the frontier and cost at most the
/// slack of their block, ascending, and then the others, ascending.
pub(crate) fn order_of(
    alloc: Global,
    codes: &Codes,
    front: &Frontier<'_>,
    hints: &Hints,
    range: Literal,
) -> Result<Order, NoMemory>
    requires front { front.now.yard ≡ codes.now }
    requires block { range.block < blocks (choices codes.now) }
    ensures inside { IfOk result (λ order. All (IsSegment range) order.list.items) }
    ensures each { IfOk result (λ order. HaveAll range order.list.items) }
{
    let slack = slack_of(codes, front, hints.wanted(), range.block);
    let mut list = children_of(alloc, front, range, slack)?;
    let first = list.len();
    add_others(&mut list, range)?;
    Ok(Order { list, first })
}
