//! What a worker does.
ghost use Rattle.std.specs.Prelude.{◌≡◌, ◌+◌, ◌<◌, ◌≤◌, ◌⊎◌, true, OnOk};
ghost use Rattle.plan_rule.specs.Jobs.{IsJob};
ghost use Rattle.plan_rule.specs.Yards.{choices};
ghost use Rattle.log_merge.specs.Tiles.{has};
ghost use Rattle.branch_workers.specs.Stock.{IsStocked};
ghost use Rattle.branch_workers.specs.Work.{HandlesJob, IsMade, Grown, IsInHand, IsSound, IsSameOwner, IsStart, IsSamePlace, HasWorked, IsLogged};

use crate::Worker;
use crate::opening::offer_first;
use crate::regions::splits;
use crate::reporting::report_on;
use crate::sharing::{post_last, take_in};
use crate::stealing::{drain, next_job};
use branch_search::Hints;
use code_table::Codes;
use incumbent_word::Board;
use plan_rule::{Job, halves};
use shape_exact::NoMemory;
use std::alloc::Global;
use steal_rule::Owner;
use tardiness_bounds::YardTables;
use yard_io::Gate;

/// How many steals a worker may make.
const MAY_STEAL: u32 = 2_097_152;

/// Whether the bar's path number lies in the job's interval. Where there is no plan yet, no job has it.
fn has_bar(job: Job, bar: u64) -> bool
    requires { IsJob job }
{
    if bar == u64::MAX {
        return false;
    }
    let path = bar % 4_294_967_296;
    let front = u64::from(job.front);
    front <= path && path - front < 2u64.pow(32 - u32::from(job.length))
}

/// Halves the job while the bar lies in it and the deque has room, and pushes the upper halves; answers what is left.
fn halve(codes: &Codes, split: u8, bar: u64, job: Job, owner: &mut Owner) -> Job
    requires split { split ≤ 20 }
    requires job { IsJob job }
    ensures { IsInHand (choices codes.now) split job owner.old owner.new result }
{
    let mut part = job;
    while part.length < split && owner.room() > 0 && has_bar(part, bar) && splits(codes, part) {
        let Some((low, high)) = halves(part) else {
            unreachable!()
        };
        owner.push(high);
        part = low;
    }
    part
}

/// Halves the job where that pays, and solves what is left. Then it posts the last refutation that was stored, and takes in
/// what another worker has posted.
fn take_job(
    alloc: Global,
    codes: &Codes,
    tables: &YardTables<'_>,
    board: &Board,
    split: u8,
    job: Job,
    worker: &mut Worker,
    hints: &mut Hints,
) -> Result<(), NoMemory>
    requires split { split ≤ 20 }
    requires job { IsJob job }
    requires tables { tables.now.yard ≡ codes.now }
    requires board { (worker.old.seat.place ≡ board.now) × (board.now.yard ≡ codes.now) }
    requires number { worker.old.number < 16 }
    requires logged { IsLogged (choices codes.now) worker.old.log worker.old.seat.seen worker.old.reports }
    requires stocked { IsStocked (choices codes.now) worker.old.log worker.old.store worker.old.seat.seen }
    ensures place { IsSamePlace worker.old worker.new × (worker.new.reaches ≡ worker.old.reaches) }
    ensures owner { IsSameOwner worker.old.owner worker.new.owner × (worker.new.owner.popped ≡ worker.old.owner.popped) }
    ensures made { Grown (IsMade (choices codes.now) split) worker.old.owner.pushed worker.new.owner.pushed }
    ensures reported { OnOk result (Grown (λ r. IsSound (choices codes.now) r × ((r.job ≡ job) ⊎ IsMade (choices codes.now) split r.job))
        worker.old.reports worker.new.reports) }
    ensures logged { OnOk result (IsLogged (choices codes.now) worker.new.log worker.new.seat.seen worker.new.reports) }
    ensures stocked { OnOk result (IsStocked (choices codes.now) worker.new.log worker.new.store worker.new.seat.seen) }
    ensures count { OnOk result (HandlesJob job worker.old worker.new) }
{
    let bar = board.see(&mut worker.seat);
    let part = halve(codes, split, bar, job, &mut worker.owner);
    let stored = worker.store.len();
    let report = report_on(
        alloc,
        codes,
        tables,
        board,
        part,
        bar,
        &mut worker.seat,
        &mut worker.store,
        &mut worker.log,
        hints,
    )?;
    let posted = post_last(
        alloc,
        codes,
        board,
        worker.number as u8,
        stored,
        report.seen,
        &mut worker.seat,
        &worker.store,
        &worker.log,
    );
    let turn = worker.number as usize + 1 + worker.reports.list().len();
    let before = worker.log.records().len();
    take_in(
        alloc,
        codes,
        board,
        (turn % 16) as u8,
        &mut worker.seat,
        &mut worker.store,
        &mut worker.log,
    )?;
    let taken = worker.log.records().len() > before;
    worker.capsules.count(posted, taken);
    worker.reports.push(report)?;
    Ok(())
}

/// Offers a plan, and then takes jobs until there is none.
fn work_all<G: Gate>(
    alloc: Global,
    codes: &Codes,
    tables: &YardTables<'_>,
    board: &Board,
    split: u8,
    worker: &mut Worker,
    gate: &G,
) -> Result<(), NoMemory>
    requires split { split ≤ 20 }
    requires tables { tables.now.yard ≡ codes.now }
    requires board { (worker.old.seat.place ≡ board.now) × (board.now.yard ≡ codes.now) }
    requires fresh { IsStart worker.old }
    ensures place { IsSamePlace worker.old worker.new }
    ensures worked { OnOk result (HasWorked (choices codes.now) split worker.old.owner worker.new.owner
        worker.old.reaches.items worker.new.reaches.items worker.new.reports) }
    ensures logged { OnOk result (IsLogged (choices codes.now) worker.new.log worker.new.seat.seen worker.new.reports) }
    ensures idle { OnOk result (worker.new.owner.idle ≡ true) }
{
    let mut hints = Hints::new(alloc, codes)?;
    let others = worker.reaches.len();
    offer_first(
        alloc,
        codes,
        tables,
        board,
        worker.number,
        others,
        &mut worker.seat,
    )?;
    let mut left: u32 = MAY_STEAL;
    while let Some(job) = next_job(&mut worker.owner, worker.reaches.as_mut_slice(), &mut left) {
        gate.at_job(worker.number, job.word());
        take_job(alloc, codes, tables, board, split, job, worker, &mut hints)?;
    }
    Ok(())
}

/// The same as `work`, with tables of the yard that all workers share.
pub(crate) fn work_with<G: Gate>(
    alloc: Global,
    codes: &Codes,
    tables: &YardTables<'_>,
    board: &Board,
    split: u8,
    worker: &mut Worker,
    gate: &G,
) -> Result<(), NoMemory>
    requires split { split ≤ 20 }
    requires tables { tables.now.yard ≡ codes.now }
    requires board { (worker.old.seat.place ≡ board.now) × (board.now.yard ≡ codes.now) }
    requires fresh { IsStart worker.old }
    ensures place { IsSamePlace worker.old worker.new }
    ensures worked { OnOk result (HasWorked (choices codes.now) split worker.old.owner worker.new.owner
        worker.old.reaches.items worker.new.reaches.items worker.new.reports) }
    ensures logged { OnOk result (IsLogged (choices codes.now) worker.new.log worker.new.seat.seen worker.new.reports) }
    ensures idle { worker.new.owner.idle ≡ true }
{
    let worked = work_all(alloc, codes, tables, board, split, worker, gate);
    if worked.is_err() {
        drain(&mut worker.owner);
    }
    worked
}

/// Makes the tables of the yard, and works with them.
fn work_alone<G: Gate>(
    alloc: Global,
    codes: &Codes,
    board: &Board,
    split: u8,
    worker: &mut Worker,
    gate: &G,
) -> Result<(), NoMemory>
    requires split { split ≤ 20 }
    requires board { (worker.old.seat.place ≡ board.now) × (board.now.yard ≡ codes.now) }
    requires fresh { IsStart worker.old }
    ensures place { IsSamePlace worker.old worker.new }
    ensures worked { OnOk result (HasWorked (choices codes.now) split worker.old.owner worker.new.owner
        worker.old.reaches.items worker.new.reaches.items worker.new.reports) }
    ensures logged { OnOk result (IsLogged (choices codes.now) worker.new.log worker.new.seat.seen worker.new.reports) }
    ensures idle { OnOk result (worker.new.owner.idle ≡ true) }
{
    let tables = YardTables::new(alloc, codes)?;
    work_with(alloc, codes, &tables, board, split, worker, gate)
}

/// Empties the worker's own deque, and steals from each other one, until a round of tries gives no job or 2,097,152 steals
/// are made. Each job is halved or solved, and reported. After want of memory the rest of its own deque is taken and not
/// solved. A worker that is not alone first offers a plan by list schedules of the whole yard.
///
/// The worker has solved nothing yet, and its reaches are of other workers' deques.
pub fn work<G: Gate + Sync>(
    alloc: Global,
    codes: &Codes,
    board: &Board,
    split: u8,
    worker: &mut Worker,
    gate: &G,
) -> Result<(), NoMemory>
    requires split { split ≤ 20 }
    requires board { (worker.old.seat.place ≡ board.now) × (board.now.yard ≡ codes.now) }
    requires fresh { IsStart worker.old }
    ensures place { IsSamePlace worker.old worker.new }
    ensures worked { OnOk result (HasWorked (choices codes.now) split worker.old.owner worker.new.owner
        worker.old.reaches.items worker.new.reaches.items worker.new.reports) }
    ensures logged { OnOk result (IsLogged (choices codes.now) worker.new.log worker.new.seat.seen worker.new.reports) }
    ensures idle { worker.new.owner.idle ≡ true }
{
    let worked = work_alone(alloc, codes, board, split, worker, gate);
    if worked.is_err() {
        drain(&mut worker.owner);
    }
    worked
}
