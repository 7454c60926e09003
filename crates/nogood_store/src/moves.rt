//! The moves of the boxes as codes are entered and left.
ghost use Rattle.std.specs.Prelude.{◌≡◌, ℕ, ◌+◌, ◌-◌, ◌<◌, ◌≤◌, List, All, ◌∷◌, ◌++◌, length, drop};
ghost use Rattle.std.specs.Vec.{vec_capacity};
ghost use Rattle.nogood_store.specs.declared.step.Step.{Step};
ghost use Rattle.nogood_store.specs.Waits.{box_of, Rising};
ghost use Rattle.nogood_store.specs.Places.{AreFor, to_match};
ghost use Rattle.nogood_store.specs.Steps.{AreSteps, lists_after, past_after};

use crate::Nogood;
use crate::step::Step;
use crate::waits::waits_on;
use watch_chains::Chains;

/// Undoes the open moves down to a number of them.
pub(crate) fn rewind(chains: &mut Chains, mark: u32)
    requires { mark ≤ length chains.old.past }
    ensures back { chains.new.lists ∷ chains.new.past
        ≡ drop (length chains.old.past - mark) (chains.old.lists ∷ chains.old.past) }
    ensures entries { chains.new.entries ≡ chains.old.entries }
    ensures spare_entries { chains.new.spare_entries ≡ chains.old.spare_entries }
    ensures spare_moves { chains.new.spare_moves + length chains.new.past
        ≡ chains.old.spare_moves + length chains.old.past }
{
    while chains.open_moves() > mark {
        chains.undo();
    }
}

/// Makes the steps, one after another.
pub(crate) fn advance(chains: &mut Chains, steps: &[Step])
    requires spare { length steps.now ≤ chains.old.spare_moves }
    requires entries { All (λ s. s.entry < chains.old.entries) steps.now }
    requires chains_in { All (λ s. s.chain < length chains.old.lists) steps.now }
    ensures lists { chains.new.lists ≡ lists_after chains.old.lists steps.now }
    ensures past { chains.new.past ≡ past_after chains.old.lists chains.old.past steps.now }
    ensures entries { chains.new.entries ≡ chains.old.entries }
    ensures spare_moves { chains.new.spare_moves + length steps.now ≡ chains.old.spare_moves }
{
    for step in steps {
        chains.move_to(step.entry, step.chain);
    }
}

/// Puts last in the trail the steps of the next block's chain for a code: each of its boxes that no longer waits there.
pub(crate) fn gather(
    chains: &Chains,
    list: &[Nogood],
    codes: &[u32],
    code: u32,
    trail: &mut Vec<Step>,
)
    requires few { length codes.now < 32 }
    requires stand { AreFor list.now codes.now chains.now.lists }
    requires entries { chains.now.entries ≡ length list.now }
    requires rising { (e : ℕ) → e < length list.now → Rising 0 (box_of list.now e) }
    requires room { length trail.old.items + to_match list.now 0 chains.now.lists ≤ vec_capacity trail.old }
    ensures steps { (steps : List Step) × (trail.new.items ≡ trail.old.items ++ steps)
        × AreSteps list.now codes.now code steps }
    ensures capacity { vec_capacity trail.new ≡ vec_capacity trail.old }
{
    let block = codes.len();
    let mut cursor = chains.first(block as u32);
    while let Some(entry) = cursor {
        let chain = u32::from(waits_on(list[entry as usize].part.literals(), codes, code));
        if chain != block as u32 {
            trail.push_reserved(Step { entry, chain });
        }
        cursor = chains.next(entry);
    }
}
