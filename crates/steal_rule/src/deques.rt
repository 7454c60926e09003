//! The making and the end of a deque.
ghost use Rattle.std.specs.Prelude.{◌≡◌, ◌+◌, ℕ, length, All, IfOk, true};
ghost use Rattle.std.specs.List.{sum_by};
ghost use Rattle.plan_rule.specs.declared.job.Job.{Job};
ghost use Rattle.steal_rule.specs.Deques.{new_owner, whole_reach, weight_stolen};

use crate::rule::{AllParts, Gathers, Settles};
use crate::{Owner, Reach};
use atomic_table::Table;
use shape_exact::NoMemory;
use std::alloc::Global;
use std::sync::Arc;

/// How many jobs were pushed, popped and stolen.
#[derive(Clone, Copy, Debug, PartialEq, Eq)]
pub struct Tally {
    pub pushed: u64,
    pub popped: u64,
    pub stolen: u64,
}

/// A deque of 64 empty cells: its owner, and a reach that holds all 16 parts. The number names the deque for the
/// caller.
pub fn deque(alloc: Global, owner: u32) -> Result<(Owner, Reach), NoMemory>
    ensures owner { IfOk result (λ made. made.0 ≡ new_owner made.0.deque owner) }
    ensures reach { IfOk result (λ made. made.1 ≡ whole_reach made.0.deque owner) }
{
    let (table, mut place) = Table::of_words(alloc, &[0; 64], &())?;
    let cells = Arc::new(alloc, table)?;
    let theirs = Arc::try_clone(&cells)?;
    let reach = cells.shared.split_seat::<AllParts>(&mut place);
    let owned = Owner {
        cells,
        place,
        number: owner,
        room: 64,
        popped: 0,
    };
    let reach = Reach {
        cells: theirs,
        place: reach,
        number: owner,
        parts: 16,
    };
    Ok((owned, reach))
}

/// Ends a deque, and counts its jobs. However jobs are weighed, those that were popped and stolen weigh what was
/// pushed: so each pushed job was popped or stolen exactly as often as it was pushed.
pub fn done(owner: Owner, reaches: Vec<Reach>) -> Tally
    requires idle { owner.idle ≡ true }
    requires same { All (λ r. r.deque ≡ owner.deque) reaches.items }
    requires parts { sum_by (λ r. r.parts) reaches.items ≡ 16 }
    ensures taken { (h : Job → ℕ)
        → sum_by h owner.pushed ≡ sum_by h owner.popped + weight_stolen h reaches.items }
    ensures pushed { result.pushed ≡ length owner.pushed }
    ensures popped { result.popped ≡ length owner.popped }
    ensures stolen { result.stolen ≡ sum_by (λ r. length r.stolen) reaches.items }
{
    let pushed = 64 - u64::from(owner.room);
    let popped = u64::from(owner.popped);
    settle(owner, reaches);
    Tally {
        pushed,
        popped,
        stolen: pushed - popped,
    }
}

/// Takes in what the reaches stole; then the owner, with all parts, has each job that was pushed.
fn settle(owner: Owner, mut reaches: Vec<Reach>)
    requires idle { owner.idle ≡ true }
    requires same { All (λ r. r.deque ≡ owner.deque) reaches.items }
    requires parts { sum_by (λ r. r.parts) reaches.items ≡ 16 }
    ensures { (h : Job → ℕ)
        → sum_by h owner.pushed ≡ sum_by h owner.popped + weight_stolen h reaches.items }
{
    let Owner {
        cells,
        mut place,
        number: _,
        room: _,
        popped: _,
    } = owner;
    while let Some(reach) = reaches.pop() {
        let Reach {
            cells: theirs,
            place: other,
            number: _,
            parts: _,
        } = reach;
        cells.shared.join_seat::<Gathers>(&mut place, other);
        drop(theirs);
    }
    cells.shared.swap::<Settles>(&mut place, 0, 0);
}
