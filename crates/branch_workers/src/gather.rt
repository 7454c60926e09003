//! The reaches of each deque, gathered, and the end of the deques.
ghost use Rattle.std.specs.Prelude.{◌≡◌, ◌+◌, ◌<◌, ◌≤◌, ℕ, [], length, slice_index_or, All, Contains, vec_capacity};
ghost use Rattle.std.specs.List.{sum_by};
ghost use Rattle.plan_rule.specs.declared.job.Job.{Job};
ghost use Rattle.branch_workers.specs.Deal.{pushed_by};
ghost use Rattle.branch_workers.specs.declared.worker.Worker.{Worker};
ghost use Rattle.branch_workers.specs.Gather.{only, held, Pile, IsGathered, IsGathering, AreReady, popped_by, stolen_from};

use crate::Worker;
use incumbent_word::{Board, Seat};
use steal_rule::{Reach, done};

/// Puts each reach on the pile of its deque.
pub(crate) fn gather_one(reaches: &mut Vec<Reach>, piles: &mut [Vec<Reach>])
    requires numbers { All (λ r. r.number < length piles.old) reaches.old.items }
    requires room { (k : ℕ) (d : Pile) → k < length piles.old → length (slice_index_or piles.old k d).items + sum_by (only k (λ _. 1)) reaches.old.items ≤ vec_capacity (slice_index_or piles.old k d) }
    ensures empty { reaches.new.items ≡ [] }
    ensures gathered { IsGathered reaches.old.items [] piles.old piles.new }
{
    while let Some(reach) = reaches.pop() {
        let k = reach.owner() as usize;
        let _ = piles[k].push(reach);
    }
}

/// Puts each worker's reaches on the piles of their deques.
pub(crate) fn gather(workers: &mut [Worker], piles: &mut [Vec<Reach>])
    requires numbers { All (λ w. All (λ r. r.number < length piles.old) w.reaches.items) workers.old }
    requires room { (k : ℕ) (d : Pile) → k < length piles.old → length (slice_index_or piles.old k d).items + held (only k (λ _. 1)) workers.old ≤ vec_capacity (slice_index_or piles.old k d) }
    ensures gathered { IsGathering workers.old workers.new piles.old piles.new (length workers.old) }
{
    for i in 0..workers.len() {
        gather_one(&mut workers[i].reaches, piles);
    }
}

/// Joins the workers' seats to one, and ends each worker's deque: each job that was pushed was popped or stolen exactly
/// as often. Answers how many were stolen, which no clause says.
pub(crate) fn settle(
    board: &Board,
    seat: &mut Seat,
    mut workers: Vec<Worker>,
    mut piles: Vec<Vec<Reach>>,
) -> u64
    requires board { seat.old.place ≡ board.now }
    requires seats { All (λ w. w.seat.place ≡ board.now) workers.items }
    requires sizes { length workers.items ≡ length piles.items }
    requires ready { AreReady workers.items piles.items }
    ensures settled { (h : Job → ℕ) → pushed_by h workers.items ≡ popped_by h workers.items + stolen_from h piles.items }
    ensures place { seat.new.place ≡ seat.old.place }
    ensures seen { (w : Worker) (k : ℕ) → Contains workers.items w → Contains w.seat.seen k → Contains seat.new.seen k }
{
    let mut stolen: u64 = 0;
    while let Some(worker) = workers.pop() {
        if let Some(pile) = piles.pop() {
            let Worker {
                number: _,
                seat: own,
                owner,
                reaches: _,
                store: _,
                reports: _,
                log: _,
                capsules: _,
            } = worker;
            board.join(seat, own);
            let tally = done(owner, pile);
            stolen = stolen.saturating_add(tally.stolen);
        }
    }
    stolen
}
