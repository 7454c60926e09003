//! The making of a crew: workers, their deques, and the reaches by which each worker can steal from each other one.
ghost use Rattle.std.specs.Prelude.{◌≡◌, ◌<◌, ◌≤◌, ◌+◌, ◌-◌, ◌∷◌, ◌++◌, ℕ, [], length, IfOk, OnOk, All};
ghost use Rattle.branch_workers.specs.Gather.{IsMadeFor};
ghost use Rattle.branch_workers.specs.Making.{AreHired, IsHired, IsLent, IsShared, AreShared, AreEmpty};

use crate::gather::gather_one;
use crate::{Capsules, Reports, Worker};
use incumbent_word::{Board, Seat};
use nogood_store::Nogoods;
use refutation_log::Log;
use shape_exact::NoMemory;
use std::alloc::Global;
use steal_rule::{Reach, deque};

/// A worker with an empty deque and no reach, and the reach that holds all parts of its deque.
fn hire_one(
    alloc: Global,
    board: &Board,
    seat: &mut Seat,
    number: u32,
) -> Result<(Worker, Reach), NoMemory>
    requires { seat.old.place ≡ board.now }
    ensures seat { seat.new ≡ seat.old }
    ensures hired { IfOk result (λ r. IsHired board.now number r.0 r.1) }
{
    let (owner, reach) = deque(alloc, number)?;
    let store = Nogoods::new(alloc)?;
    let reports = Reports::new(alloc)?;
    let worker = Worker {
        number,
        seat: board.split(seat),
        owner,
        reaches: Vec::new(alloc),
        store,
        reports,
        log: Log::new(alloc),
        capsules: Capsules::none(),
    };
    Ok((worker, reach))
}

/// That many workers, and for each the reach that holds all parts of its deque.
fn hire(
    alloc: Global,
    board: &Board,
    seat: &mut Seat,
    count: u32,
) -> Result<(Vec<Worker>, Vec<Reach>), NoMemory>
    requires { seat.old.place ≡ board.now }
    ensures seat { seat.new ≡ seat.old }
    ensures hired { IfOk result (λ r. AreHired board.now r.0.items r.1.items count) }
{
    let mut workers = Vec::new(alloc);
    let mut mains = Vec::new(alloc);
    for number in 0..count {
        let (worker, main) = hire_one(alloc, board, seat, number)?;
        workers.push(worker)?;
        mains.push(main)?;
    }
    Ok((workers, mains))
}

/// Gives the worker a reach, which takes one part.
fn lend(alloc: Global, main: &mut Reach, worker: &mut Worker) -> Result<(), NoMemory>
    requires { 1 < main.old.parts }
    ensures { OnOk result (IsLent main.old main.new worker.old worker.new) }
{
    let reach = main.split(alloc)?;
    worker.reaches.push(reach)?;
    Ok(())
}

/// Gives each worker but one a reach.
fn share_one(
    alloc: Global,
    k: usize,
    main: &mut Reach,
    workers: &mut [Worker],
) -> Result<(), NoMemory>
    requires k { k < length workers.old }
    requires few { length workers.old ≤ 16 }
    requires whole { main.old.parts ≡ 16 }
    ensures { OnOk result (IsShared main.old main.new workers.old workers.new (length workers.old - 1)) }
{
    for j in 0..k {
        lend(alloc, main, &mut workers[j])?;
    }
    for j in k + 1..workers.len() {
        lend(alloc, main, &mut workers[j])?;
    }
    Ok(())
}

/// Gives each worker a reach of each other worker's deque.
fn share_all(alloc: Global, mains: &mut [Reach], workers: &mut [Worker]) -> Result<(), NoMemory>
    requires few { length workers.old ≤ 16 }
    requires sizes { length mains.old ≡ length workers.old }
    requires whole { All (λ r. r.parts ≡ 16) mains.old }
    ensures { OnOk result (AreShared mains.old mains.new workers.old workers.new (length workers.old)) }
{
    for k in 0..workers.len() {
        share_one(alloc, k, &mut mains[k], workers)?;
    }
    Ok(())
}

/// Empty piles with room for 16 reaches.
fn empty_piles(alloc: Global, count: u32) -> Result<Vec<Vec<Reach>>, NoMemory>
    ensures { IfOk result (λ v. AreEmpty v.items count) }
{
    let mut piles = Vec::new(alloc);
    for number in 0..count {
        prove!(number < count);
        piles.push(Vec::with_capacity(alloc, 16)?)?;
    }
    Ok(piles)
}

/// A crew: workers, each with a reach of each other one's deque, and for each deque the pile on which its reaches come
/// together in the end.
pub(crate) fn make(
    alloc: Global,
    board: &Board,
    seat: &mut Seat,
    count: u32,
) -> Result<(Vec<Worker>, Vec<Vec<Reach>>), NoMemory>
    requires seat { seat.old.place ≡ board.now }
    requires few { count ≤ 16 }
    ensures seat { seat.new ≡ seat.old }
    ensures made { IfOk result (λ r. IsMadeFor board.now r.0.items r.1.items × (length r.0.items ≡ count)) }
{
    let (mut workers, mut mains) = hire(alloc, board, seat, count)?;
    let mut piles = empty_piles(alloc, count)?;
    share_all(alloc, mains.as_mut_slice(), workers.as_mut_slice())?;
    gather_one(&mut mains, piles.as_mut_slice());
    Ok((workers, piles))
}
