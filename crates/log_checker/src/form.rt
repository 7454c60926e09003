//! Whether a record names blocks, codes and days that exist, beside a side that is a box.
ghost use Rattle.std.specs.Prelude.{◌≡◌, ◌<◌, ◌≤◌, ◌↔◌, IsTrue};
ghost use Rattle.plan_rule.specs.Choices.{blocks, count};
ghost use Rattle.plan_rule.specs.Boxes.{IsBox, IsLiteral, LeavesFree};
ghost use Rattle.plan_rule.specs.Yards.{choices};
ghost use Rattle.refutation_log.specs.Steps.{IsRange};
ghost use Rattle.log_checker.specs.Forms.{HasForm};

use code_table::Codes;
use plan_rule::{Literal, PlanBox, block_count};
use refutation_log::Record;

/// How many codes the block has.
#[tactic(auto, using(plan_rule::proofs::CountLaws::counts))]
pub(crate) fn count_of(codes: &Codes, block: u8) -> u32
    requires { block < blocks (choices codes.now) }
    ensures { result ≡ count (choices codes.now) block }
{
    codes.count(block)
}

/// Whether the literal has some codes of a block, and each of them only where there is one.
fn is_literal(codes: &Codes, l: Literal) -> bool
    ensures { IsTrue result ↔ IsLiteral (choices codes.now) l }
{
    if l.block >= block_count(codes) {
        return false;
    }
    let count = count_of(codes, l.block);
    if count != 1 && l.is_whole(codes) {
        return false;
    }
    l.lo < l.hi && l.hi <= count
}

/// Whether the literals are those of a box in this yard.
fn is_box(codes: &Codes, side: &PlanBox) -> bool
    ensures { IsTrue result ↔ IsBox (choices codes.now) side.now }
{
    for l in side.literals() {
        if !is_literal(codes, *l) {
            return false;
        }
    }
    true
}

/// Whether the box has no literal on the block.
fn leaves_free(side: &PlanBox, block: u8) -> bool
    ensures { IsTrue result ↔ LeavesFree side.now block }
{
    for l in side.literals() {
        if l.block == block {
            return false;
        }
    }
    true
}

/// Whether these are some codes of the block, or none where it has none.
fn is_range(codes: &Codes, block: u8, lo: u32, hi: u32) -> bool
    requires { block < blocks (choices codes.now) }
    ensures { IsTrue result ↔ IsRange (choices codes.now) block lo hi }
{
    let count = count_of(codes, block);
    (lo < hi && hi <= count) || (lo == 0 && hi == 0 && count == 0)
}

/// Whether a branch has the form of one.
fn is_branch(codes: &Codes, block: u8, lo: u32, hi: u32, side: &PlanBox) -> bool
    ensures { IsTrue result ↔ (IsBox (choices codes.now) side.now × (block < blocks (choices codes.now))
        × LeavesFree side.now block × IsRange (choices codes.now) block lo hi) }
{
    block < block_count(codes)
        && is_box(codes, side)
        && leaves_free(side, block)
        && is_range(codes, block, lo, hi)
}

/// Whether these are the first and the last of some days.
#[tactic(auto, unfolding(plan_rule::specs::Yards::choices))]
fn is_window(codes: &Codes, from: u16, to: u16) -> bool
    ensures { IsTrue result ↔ ((from ≤ to) × (to < (choices codes.now).days)) }
{
    from <= to && to < codes.yard().days()
}

/// Whether the record has the form of one in this yard.
pub(crate) fn has_form(codes: &Codes, entry: &Record) -> bool
    ensures { IsTrue result ↔ HasForm (choices codes.now) entry.now }
{
    match entry {
        Record::Branch {
            block,
            lo,
            hi,
            side,
            ..
        } => is_branch(codes, *block, *lo, *hi, side),
        Record::Fit { side } => is_box(codes, side),
        Record::Energy { from, to, side } => is_window(codes, *from, *to) && is_box(codes, side),
    }
}
