//! Boxes of plans.
ghost use Rattle.std.specs.List.{AllWithin};
ghost use Rattle.std.specs.Prelude.{◌≡◌, ◌+◌, ◌≤◌, ◌<◌, ◌==◌, ◌↔◌, IsTrue, IfOk, if◌then◌else◌, length, slice_index_or};
ghost use Rattle.plan_rule.specs.declared.literal.Literal.{Literal};
ghost use Rattle.plan_rule.specs.Yards.{choices};
ghost use Rattle.plan_rule.specs.Boxes.{AreAmong, AreLiterals, Covers, Holds, exact_code};
ghost use Rattle.plan_rule.specs.Bounds.{IsBehindOn};

use crate::{Literal, Plan};
use code_table::Codes;
use shape_exact::NoMemory;
use std::alloc::Global;
use std::marker::Model;

/// A box of plans: literals, strictly ascending by block, each of at least one code. Contracts see it as the list of its
/// literals.
#[derive(Drop)]
pub struct PlanBox {
    list: Vec<Literal>,
}

impl Model for PlanBox {
    ghost use Rattle.std.specs.Prelude.{List};
    ghost use Rattle.plan_rule.specs.declared.literal.Literal.{Literal};
    ghost use Rattle.plan_rule.specs.Boxes.{AreLiterals};

    ghost Value = { List Literal };

    ghost view = { λ s. s.list.items };

    ghost invariant = { λ s. AreLiterals s.list.items };
}

impl PlanBox {
    /// The box of the literals, which are copied.
    pub fn new(alloc: Global, literals: &[Literal]) -> Result<PlanBox, NoMemory>
        requires { AreLiterals literals.now }
        ensures { IfOk result (λ b. b ≡ literals.now) }
    {
        let list = Vec::from_slice(alloc, literals)?;
        Ok(PlanBox { list })
    }

    /// The box of the literals, without a copy.
    pub fn from_list(list: Vec<Literal>) -> PlanBox
        requires { AreLiterals list.items }
        ensures { result ≡ list.items }
    {
        PlanBox { list }
    }

    /// The literals, strictly ascending by block.
    pub fn literals(&self) -> &[Literal]
        ensures value { result.now ≡ self.now }
        ensures ordered { AreLiterals result.now }
    {
        self.list.as_slice()
    }

    /// The code that the box sets the block to. None where it sets it to none.
    pub fn exact_code(&self, block: u8) -> Option<u32>
        ensures { result ≡ exact_code self.now block }
    {
        for l in self.literals() {
            if l.block == block {
                return only_code(*l);
            }
        }
        None
    }

    /// Whether the plan lies in the box: each literal's range has the plan's code of that block.
    pub fn holds(&self, plan: &Plan) -> bool
        requires { AreAmong (length plan.now) self.now }
        ensures { IsTrue result ↔ Holds self.now plan.now }
    {
        for l in self.literals() {
            if !l.has(plan.codes()[usize::from(l.block)]) {
                return false;
            }
        }
        true
    }

    /// Whether each literal of the box holds the other box's literal on the same block, or is whole.
    pub fn contains(&self, codes: &Codes, other: &PlanBox) -> bool
        ensures { IsTrue result ↔ Covers (choices codes.now) self.now other.now }
    {
        let others = other.literals();
        let mut at = 0;
        for l in self.literals() {
            at = place_from(others, at, l.block);
            if !l.is_whole(codes) && !(at < others.len() && l.takes(others[at])) {
                return false;
            }
        }
        true
    }

    /// Whether the literals fix the first blocks to the plan's codes, up to one whose codes in the box are all above the
    /// plan's, or fix every block to the plan's code. Then every plan in the box is this plan or, as a list of codes,
    /// after it.
    pub fn behind(&self, plan: &Plan) -> bool
        requires { AreAmong (length plan.now) self.now }
        ensures { IsTrue result ↔ IsBehindOn (length plan.now) self.now plan.now }
    {
        let codes = plan.codes();
        for (i, l) in self.literals().iter().enumerate() {
            if usize::from(l.block) != i {
                return false;
            }
            if codes[i] < l.lo {
                return true;
            }
            if !l.is_exact(l.block, codes[i]) {
                return false;
            }
        }
        self.literals().len() == codes.len()
    }
}

/// The code of a literal that has one code alone. None where it has more.
fn only_code(l: Literal) -> Option<u32>
    requires { l.lo < l.hi }
    ensures { result ≡ (if l.hi == l.lo + 1 then Some l.lo else None) }
{
    if l.hi - l.lo == 1 { Some(l.lo) } else { None }
}

/// The place of the first literal, from a place on, whose block is not below this one.
fn place_from(list: &[Literal], from: usize, block: u8) -> usize
    requires { from ≤ length list.now }
    ensures within { (from ≤ result) × (result ≤ length list.now) }
    ensures before { AllWithin (λ l. l.block < block) list.now from result }
    ensures at { (d : Literal) → result < length list.now → block ≤ (slice_index_or list.now result d).block }
{
    let mut at = from;
    while at < list.len() && list[at].block < block {
        at += 1;
    }
    at
}
