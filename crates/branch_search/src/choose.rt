//! Which block a box is branched on, and by which of its codes.
ghost use Rattle.std.specs.Prelude.{◌≡◌, ◌<◌, None, IfOk};
ghost use Rattle.plan_rule.specs.Boxes.{IsBox, exact_code};
ghost use Rattle.plan_rule.specs.Choices.{blocks};
ghost use Rattle.branch_kernel.specs.States.{IsHeld};
ghost use Rattle.plan_rule.specs.Yards.{choices};

use crate::Hints;
use crate::levels::Level;
use branch_kernel::{count_of, range_on};
use code_table::Codes;
use plan_rule::{Literal, Plan, PlanBox, block_count, total};
use shape_exact::NoMemory;
use std::alloc::Global;
use tardiness_bounds::{Bound, Frontier, YardTables, base};

/// The greatest total that is still wanted in a box: the bar's, or less by one where its plans are behind the best.
pub(crate) fn wanted(codes: &Codes, bar: u64, best: &Option<Plan>, part: &PlanBox) -> u32
    requires held { IsHeld (choices codes.now) bar best.now }
    requires part { IsBox (choices codes.now) part.now }
{
    let most = (bar / 0x1_0000_0000) as u32;
    if let Some(plan) = best {
        if part.behind(plan) {
            return most.min(total(codes, plan).saturating_sub(1));
        }
    }
    most
}

/// A bound as a number; Never as the greatest.
pub(crate) fn number_of(bound: Bound) -> u32 {
    match bound {
        Bound::Number(number) => number,
        Bound::Never => u32::MAX,
    }
}

/// How many codes of a range are clear of a frontier and cost at most so much; no more are counted than enough.
fn children(front: &Frontier<'_>, range: Literal, most: u32, enough: u64) -> u64 {
    let mut count: u64 = 0;
    if !front.can_push(range.block, range.lo) {
        return 0;
    }
    for code in front.free_codes(range.block, range.lo, most) {
        if code >= range.hi || count > enough {
            break;
        }
        count = count.saturating_add(1);
    }
    count
}

/// How many codes cost more than one number and at most another.
fn between(levels: &[Level], above: u32, most: u32) -> u64 {
    let mut count: u64 = 0;
    for level in levels {
        if above < level.cost && level.cost <= most {
            count = count.saturating_add(u64::from(level.number));
        }
    }
    count
}

/// How much a block may cost at most, where the others cost what the frontier leaves them.
pub(crate) fn slack_of(codes: &Codes, front: &Frontier<'_>, most: u32, block: u8) -> u32
    requires yard { front.now.yard ≡ codes.now }
    requires block { block < blocks (choices codes.now) }
{
    let others = number_of(front.bound()).saturating_sub(front.least(block).unwrap_or(0));
    most.saturating_sub(others)
}

/// How many children a block has, and would have, had the job not cut its range: the cut makes a block look small, and a
/// refutation that hardly needs it would be made again for each of its codes.
fn uncut_children(
    codes: &Codes,
    front: &Frontier<'_>,
    hints: &Hints,
    range: Literal,
    most: u32,
    enough: u64,
) -> u64 {
    let count = children(front, range, most, enough);
    let Some(cut) = hints.cut() else {
        return count;
    };
    if count == 0 || cut.block != range.block {
        return count;
    }
    let lo = if range.lo == cut.lo { 0 } else { range.lo };
    let hi = if range.hi == cut.hi {
        count_of(codes, range.block)
    } else {
        range.hi
    };
    let whole = Literal {
        block: range.block,
        lo,
        hi,
    };
    count.max(children(front, whole, most, enough))
}

/// How many records a block needs of its own: one for each child, and one for each code that the fit refutes and the base
/// does not.
#[tactic(auto, using(plan_rule::proofs::CountLaws::counts))]
fn score_of(
    codes: &Codes,
    front: &Frontier<'_>,
    part: &PlanBox,
    hints: &Hints,
    most: u32,
    block: u8,
    enough: u64,
) -> u64
    requires yard { front.now.yard ≡ codes.now }
    requires part { IsBox (choices codes.now) part.now }
    requires block { block < blocks (choices codes.now) }
{
    let range = range_on(codes, part, block);
    let slack = slack_of(codes, front, most, block);
    let count = uncut_children(codes, front, hints, range, slack, enough);
    if count == 0 {
        return 0;
    }
    let others = number_of(base(codes, part)).saturating_sub(codes.least_cost(block).unwrap_or(0));
    let top = most.saturating_sub(others);
    count.saturating_add(between(hints.levels(block), slack, top))
}

/// The block with the fewest records of its own; of several the first. A block without a child at once. The box leaves
/// `first` open.
fn fewest(
    codes: &Codes,
    front: &Frontier<'_>,
    part: &PlanBox,
    hints: &Hints,
    most: u32,
    first: u8,
) -> u8
    requires yard { front.now.yard ≡ codes.now }
    requires part { IsBox (choices codes.now) part.now }
    requires block { first < blocks (choices codes.now) }
    requires open { exact_code part.now first ≡ None }
    ensures block { result < blocks (choices codes.now) }
    ensures open { exact_code part.now result ≡ None }
{
    let mut chosen = first;
    let mut least = u64::MAX;
    for block in 0..block_count(codes) {
        let None = part.exact_code(block) else {
            continue;
        };
        let score = score_of(codes, front, part, hints, most, block, least);
        if score == 0 {
            return block;
        }
        if score < least {
            chosen = block;
            least = score;
        }
    }
    chosen
}

/// The block on which the search branches the box. The box leaves `first` open.
pub(crate) fn choose(
    alloc: Global,
    codes: &Codes,
    tables: &YardTables<'_>,
    hints: &Hints,
    part: &PlanBox,
    first: u8,
) -> Result<u8, NoMemory>
    requires tables { tables.now.yard ≡ codes.now }
    requires part { IsBox (choices codes.now) part.now }
    requires block { first < blocks (choices codes.now) }
    requires open { exact_code part.now first ≡ None }
    ensures block { IfOk result (λ block. block < blocks (choices codes.now)) }
    ensures open { IfOk result (λ block. exact_code part.now block ≡ None) }
{
    let front = Frontier::of(alloc, tables, part)?;
    Ok(fewest(codes, &front, part, hints, hints.wanted(), first))
}
