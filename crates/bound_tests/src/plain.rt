//! The fit by its definition: every code of every block is tried.

use super::boxes::{count_of, has_code};
use code_table::Codes;
use plan_rule::{block_count, clash, meets};
use std::process::Abort;
use tardiness_bounds::Bound;

/// The code of the literal on a block; None where there is none.
pub(crate) fn exact_at(literals: &[(u8, u32)], block: u8) -> Option<u32> {
    for l in literals {
        if l.0 == block {
            return Some(l.1);
        }
    }
    None
}

/// Whether a code of a block without a literal clashes with no literal and meets no piece.
pub(crate) fn may_fit(
    rt: &impl Abort,
    codes: &Codes,
    literals: &[(u8, u32)],
    block: u8,
    code: u32,
) -> bool {
    assert!(rt; has_code(codes, block, code));
    for l in literals {
        assert!(rt; l.0 != block);
        assert!(rt; has_code(codes, l.0, l.1));
        if clash(codes, l.0, l.1, block, code) {
            return false;
        }
    }
    meets(codes, block, code).is_none()
}

/// What a code costs.
#[tactic(auto, using(plan_rule::proofs::CountLaws::counts))]
pub(crate) fn cost_of(rt: &impl Abort, codes: &Codes, block: u8, code: u32) -> u32 {
    assert!(rt; has_code(codes, block, code));
    codes.own_cost(block, code)
}

/// The first code of a block without a literal, from one on, that fits and costs at most so much.
pub(crate) fn next_free(
    rt: &impl Abort,
    codes: &Codes,
    literals: &[(u8, u32)],
    block: u8,
    code: u32,
    most: u32,
) -> Option<u32> {
    assert!(rt; block < block_count(codes));
    for x in code..count_of(codes, block) {
        if cost_of(rt, codes, block, x) <= most && may_fit(rt, codes, literals, block, x) {
            return Some(x);
        }
    }
    None
}

/// The least cost of the codes of a block that fit; of a block with a literal, that of its code.
pub(crate) fn least(
    rt: &impl Abort,
    codes: &Codes,
    literals: &[(u8, u32)],
    block: u8,
) -> Option<u32> {
    if let Some(code) = exact_at(literals, block) {
        return Some(cost_of(rt, codes, block, code));
    }
    assert!(rt; block < block_count(codes));
    let mut least: Option<u32> = None;
    for x in 0..count_of(codes, block) {
        if may_fit(rt, codes, literals, block, x) {
            let cost = cost_of(rt, codes, block, x);
            least = Some(least.unwrap_or(cost).min(cost));
        }
    }
    least
}

/// The fit of the box of the literals.
pub(crate) fn fit(rt: &impl Abort, codes: &Codes, literals: &[(u8, u32)]) -> Bound {
    let mut sum: u32 = 0;
    for block in 0..block_count(codes) {
        match least(rt, codes, literals, block) {
            Some(cost) => sum = sum.wrapping_add(cost),
            None => return Bound::Never,
        }
    }
    Bound::Number(sum)
}
