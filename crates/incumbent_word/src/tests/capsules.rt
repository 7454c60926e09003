//! Capsules of one record: a branch over codes of block 1 beside block 0 at one code.
ghost use Rattle.std.specs.Prelude.{◌≡◌, ◌+◌, ◌/◌, ◌^◌, ◌<◌, ◌≤◌, ◌⊎◌, [], ◌∷◌, ℕ, IsTrue, length};
ghost use Rattle.code_table.specs.Placements.{own_cost, placements};
ghost use Rattle.plan_rule.specs.Boxes.{exact};
ghost use Rattle.plan_rule.specs.Yards.{choices};
ghost use Rattle.refutation_log.specs.declared.record.Record.TheVariants.{Branch};
ghost use Rattle.incumbent_word.specs.Sharing.{IsShareable};

use code_table::Codes;
use plan_rule::{Literal, PlanBox, clash};
use refutation_log::{Capsule, Cites, Log, Record};
use std::alloc::Global;
use std::process::Abort;

/// Whether block 1 at each code of the range clashes with block 0 at this code, or the two cost more than the bar leaves.
#[tactic(auto, using(plan_rule::proofs::CountLaws::counts))]
fn are_shut(codes: &Codes, code: u32, lo: u32, hi: u32, bar: u64) -> bool
    requires two { length codes.now.blocks ≡ 2 }
    requires first { code < length (placements codes.now 0) }
    requires second { hi ≤ length (placements codes.now 1) }
    ensures { IsTrue result → (d : ℕ) → lo ≤ d → d < hi
        → (choices codes.now).Clash 0 code 1 d
        ⊎ ((bar / 2 ^ 32 < own_cost codes.now 0 code + own_cost codes.now 1 d)
        × (own_cost codes.now 0 code + own_cost codes.now 1 d < 2 ^ 32)) }
{
    for d in lo..hi {
        let cost = codes.own_cost(0, code) + codes.own_cost(1, d);
        if !clash(codes, 0, code, 1, d) && u64::from(cost) <= bar / 0x1_0000_0000 {
            return false;
        }
    }
    true
}

/// The box of block 0 at this code.
#[tactic(auto, using(crate::proofs::PairLaws::one_literal))]
fn side_of(rt: &impl Abort, alloc: Global, code: u32) -> PlanBox
    requires { code < 2 ^ 31 }
    ensures { result ≡ exact 0 code ∷ [] }
{
    let mut literals = Vec::new(alloc);
    literals
        .push(Literal {
            block: 0,
            lo: code,
            hi: code + 1,
        })
        .expect(rt, "memory for a literal");
    PlanBox::from_list(literals)
}

/// The log of the branch over the codes from `lo` up to, and without, `hi` of block 1 beside block 0 at this code.
fn log_of(rt: &impl Abort, alloc: Global, code: u32, lo: u32, hi: u32) -> Log
    requires { code < 2 ^ 31 }
    ensures { result ≡ Branch 1 lo hi (exact 0 code ∷ []) [] ∷ [] }
{
    let branch = Record::Branch {
        block: 1,
        lo,
        hi,
        side: side_of(rt, alloc, code),
        cites: Cites::from_list(Vec::new(alloc)),
    };
    let mut log = Log::new(alloc);
    log.push(branch).expect(rt, "memory for a record");
    log
}

/// The capsule of that log with this bar. It may be shared.
pub(crate) fn capsule_of(
    rt: &impl Abort,
    alloc: Global,
    codes: &Codes,
    code: u32,
    lo: u32,
    hi: u32,
    bar: u64,
) -> Capsule
    requires { length codes.now.blocks ≡ 2 }
    ensures bar { result.bar ≡ bar }
    ensures shareable { IsShareable codes.now result }
{
    if code >= codes.count(0) || lo >= hi || hi > codes.count(1) {
        panic!(rt; "no such codes");
    }
    if !are_shut(codes, code, lo, hi, bar) {
        panic!(rt; "two codes neither clash nor cost too much");
    }
    let log = log_of(rt, alloc, code, lo, hi);
    let Ok(capsule) = Capsule::new(bar, log) else {
        panic!(rt; "a log of one record is small")
    };
    capsule
}
