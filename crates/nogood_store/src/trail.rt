//! The open moves of a store, depth by depth.
ghost use Rattle.std.specs.Prelude.{◌≡◌, ℕ, ◌+◌, ◌-◌, ◌<◌, ◌≤◌, List, [], ◌∷◌, ◌++◌, length, slice_index};
ghost use Rattle.std.specs.Vec.{vec_capacity};
ghost use Rattle.nogood_store.specs.declared.nogood.Nogood.{Nogood};
ghost use Rattle.nogood_store.specs.declared.step.Step.{Step};
ghost use Rattle.nogood_store.specs.Waits.{box_of, Rising};
ghost use Rattle.nogood_store.specs.Places.{AreFor, literals_of, to_match};
ghost use Rattle.nogood_store.specs.Steps.{AreSteps, StepsLast};
ghost use Rattle.nogood_store.specs.Entered.{AreEntered, AreKnown, AreMarks};

use crate::Nogood;
use crate::moves::{advance, gather};
use crate::step::Step;
use crate::waits::waits_on;
use std::alloc::Global;
use watch_chains::Chains;

/// The steps of the open moves, the oldest first, and how many there were at each depth.
#[derive(Drop)]
pub struct Trail {
    pub steps: Vec<Step>,
    pub marks: [u32; 33],
}

impl Trail {
    /// The trail of no move.
    pub fn new(alloc: Global) -> Trail
        ensures steps { result.steps.items ≡ [] }
        ensures marks { AreMarks result.marks 0 }
    {
        Trail {
            steps: Vec::new(alloc),
            marks: [0; 33],
        }
    }
}

/// Enters the code of the next block: each box of its chain moves on, unless it still waits there.
pub(crate) fn enter(
    chains: &mut Chains,
    list: &[Nogood],
    trail: &mut Trail,
    codes: &[u32],
    code: u32,
)
    requires few { length codes.now < 32 }
    requires entered { AreEntered list.now codes.now trail.old.marks trail.old.steps.items chains.old }
    requires room { literals_of list.now ≤ vec_capacity trail.old.steps }
    ensures entered { AreEntered list.now (codes.now ++ code ∷ []) trail.new.marks trail.new.steps.items chains.new }
    ensures capacity { vec_capacity trail.new.steps ≡ vec_capacity trail.old.steps }
{
    let mark = trail.steps.len();
    gather(chains, list, codes, code, &mut trail.steps);
    advance(chains, &trail.steps[mark..]);
    trail.marks[codes.len() + 1] = chains.open_moves();
}

/// Enters codes with a box more, which stands last: the other boxes make the steps that are known.
pub(crate) fn enter_again(
    chains: &mut Chains,
    list: &[Nogood],
    trail: &mut Trail,
    codes: &[u32],
    known: &Trail,
)
    requires few { length codes.now ≤ 32 }
    requires few_boxes { length list.now ≤ 65536 }
    requires entered { AreEntered list.now [] trail.old.marks trail.old.steps.items chains.old }
    requires room { literals_of list.now ≤ vec_capacity trail.old.steps }
    requires marked { AreMarks known.now.marks (length codes.now) }
    requires whole { slice_index known.now.marks (length codes.now) ≤ length known.now.steps.items }
    requires known { (front : List Nogood) × (n : Nogood) × (list.now ≡ front ++ n ∷ [])
        × AreKnown front codes.now known.now.marks known.now.steps.items }
    ensures entered { AreEntered list.now codes.now trail.new.marks trail.new.steps.items chains.new }
    ensures capacity { vec_capacity trail.new.steps ≡ vec_capacity trail.old.steps }
{
    for block in 0..codes.len() {
        let steps = &known.steps[known.marks[block] as usize..known.marks[block + 1] as usize];
        follow(chains, list, trail, &codes[..block], codes[block], steps);
    }
}

/// Enters the code of the next block with a box more: the others make the known steps, and the last one its own.
fn follow(
    chains: &mut Chains,
    list: &[Nogood],
    trail: &mut Trail,
    codes: &[u32],
    code: u32,
    known: &[Step],
)
    requires few { length codes.now < 32 }
    requires few_boxes { length list.now ≤ 65536 }
    requires entered { AreEntered list.now codes.now trail.old.marks trail.old.steps.items chains.old }
    requires room { literals_of list.now ≤ vec_capacity trail.old.steps }
    requires known { (front : List Nogood) × (n : Nogood) × (list.now ≡ front ++ n ∷ [])
        × AreSteps front codes.now code known.now }
    ensures entered { AreEntered list.now (codes.now ++ code ∷ []) trail.new.marks trail.new.steps.items chains.new }
    ensures capacity { vec_capacity trail.new.steps ≡ vec_capacity trail.old.steps }
{
    let mark = trail.steps.len();
    recall(chains, list, codes, code, known, &mut trail.steps);
    advance(chains, &trail.steps[mark..]);
    trail.marks[codes.len() + 1] = chains.open_moves();
}

/// Puts last in the trail the steps that are known, and that of the last box where it moves on.
fn recall(
    chains: &Chains,
    list: &[Nogood],
    codes: &[u32],
    code: u32,
    known: &[Step],
    trail: &mut Vec<Step>,
)
    requires few { length codes.now < 32 }
    requires few_boxes { length list.now ≤ 65536 }
    requires stand { AreFor list.now codes.now chains.now.lists }
    requires entries { chains.now.entries ≡ length list.now }
    requires rising { (e : ℕ) → e < length list.now → Rising 0 (box_of list.now e) }
    requires room { length trail.old.items + to_match list.now 0 chains.now.lists ≤ vec_capacity trail.old }
    requires known { (front : List Nogood) × (n : Nogood) × (list.now ≡ front ++ n ∷ [])
        × AreSteps front codes.now code known.now }
    ensures steps { (steps : List Step) × (trail.new.items ≡ trail.old.items ++ steps)
        × AreSteps list.now codes.now code steps }
    ensures capacity { vec_capacity trail.new ≡ vec_capacity trail.old }
{
    copy_steps(trail, known);
    if let Some(step) = last_step(chains, list, codes, code) {
        trail.push_reserved(step);
    }
}

/// Puts the steps last in the trail, which has room for them.
fn copy_steps(trail: &mut Vec<Step>, steps: &[Step])
    requires { length trail.old.items + length steps.now ≤ vec_capacity trail.old }
    ensures items { trail.new.items ≡ trail.old.items ++ steps.now }
    ensures capacity { vec_capacity trail.new ≡ vec_capacity trail.old }
{
    for step in steps {
        trail.push_reserved(*step);
    }
}

/// The step of the box that stands last, where it moves on.
fn last_step(chains: &Chains, list: &[Nogood], codes: &[u32], code: u32) -> Option<Step>
    requires some { 0 < length list.now }
    requires few { length codes.now < 32 }
    requires few_boxes { length list.now ≤ 65536 }
    requires stand { AreFor list.now codes.now chains.now.lists }
    requires entries { chains.now.entries ≡ length list.now }
    requires rising { (e : ℕ) → e < length list.now → Rising 0 (box_of list.now e) }
    ensures { StepsLast list.now codes.now code result }
{
    let entry = list.len() - 1;
    let block = codes.len() as u32;
    if chains.chain_of(entry as u32) != block {
        return None;
    }
    let chain = u32::from(waits_on(list[entry].part.literals(), codes, code));
    if chain == block {
        return None;
    }
    Some(Step {
        entry: entry as u32,
        chain,
    })
}
