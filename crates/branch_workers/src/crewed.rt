//! The crew from the making of the board to its end.
ghost use Rattle.std.specs.Prelude.{map, IfOk, ◌*◌, ◌^◌, ◌≡◌, ◌≤◌, ◌<◌, ℕ, length, All, Contains};
ghost use Rattle.branch_core.specs.declared.report.Report.{Report};
ghost use Rattle.std.specs.List.{sum_by};
ghost use Rattle.plan_rule.specs.declared.job.Job.{Job};
ghost use Rattle.plan_rule.specs.Paths.{Tile};
ghost use Rattle.refutation_log.specs.Spelling.{HaveText};
ghost use Rattle.refutation_log.specs.Steps.{IsAccepted};
ghost use Rattle.plan_rule.specs.Plans.{IsBest};
ghost use Rattle.plan_rule.specs.Yards.{choices};
ghost use Rattle.branch_workers.specs.Deal.{IsDealt};
ghost use Rattle.branch_workers.specs.Gather.{AreCollected, AreReady, AreTold, AreTraced, IsBalanced, IsHonest, IsMadeFor, owner_of, reports_by};
ghost use Rattle.branch_workers.specs.Last.{IsLast};
ghost use Rattle.log_merge.specs.Tiles.{has, times, root};
ghost use Rattle.branch_workers.specs.Work.{IsSound, job_of_report};
ghost use Rattle.branch_workers.specs.declared.worker.Worker.{Worker};

use crate::best::best_of;
use crate::deal::cut;
use crate::gather::settle;
use crate::logs::take_logs;
use crate::making::make;
use crate::running::run_over;
use crate::{Capsules, Reports, Worker};
use branch_core::records_are_proper;
use code_table::Codes;
use incumbent_word::Board;
use log_merge::{Leaf, merge_leaves};
use plan_rule::{Job, Plan, keys_are_small, reports_give_best};
use refutation_log::Log;
use shape_exact::NoMemory;
use std::alloc::Global;
use std::thread::Threads;
use steal_rule::Reach;
use tardiness_bounds::YardTables;
use yard_io::Gate;

/// What a crew found: the best plan or none, the word with which the board ended, the reports, whose jobs tile, and the log
/// of all workers, which is accepted for the best. How many jobs were stolen, and how many capsules were shared, is only
/// told: no contract speaks of it.
#[derive(Drop)]
pub struct Crewed {
    pub best: Option<Plan>,
    pub last: u64,
    pub reports: Reports,
    pub log: Log,
    pub stolen: u64,
    pub capsules: Capsules,
}

/// The logs and the reports of all workers.
#[derive(Drop)]
struct Collected {
    reports: Reports,
    log: Log,
    leaves: Vec<Leaf>,
}

/// Takes the reports of all workers together.
fn reports_of(alloc: Global, workers: &mut [Worker]) -> Result<Reports, NoMemory>
    ensures owners { map owner_of workers.new ≡ map owner_of workers.old }
    ensures weighed { IfOk result (λ v. (h : Job → ℕ) → sum_by h (map job_of_report v) ≡ reports_by h workers.old) }
    ensures from { IfOk result (λ v. (r : Report) → Contains v r → (w : Worker) × Contains workers.old w × Contains w.reports r) }
{
    let mut all = Reports::new(alloc)?;
    for i in 0..workers.len() {
        all.take_in(&mut workers[i].reports)?;
    }
    Ok(all)
}

/// Takes the logs of all workers together, with a leaf for each report, and the reports.
fn collect(alloc: Global, codes: &Codes, workers: &mut [Worker]) -> Result<Collected, NoMemory>
    requires honest { All (IsHonest (choices codes.now)) workers.old }
    ensures owners { map owner_of workers.new ≡ map owner_of workers.old }
    ensures weighed { IfOk result (λ v. (h : Job → ℕ) → sum_by h (map job_of_report v.reports) ≡ reports_by h workers.old) }
    ensures from { IfOk result (λ v. (r : Report) → Contains v.reports r
        → (w : Worker) × Contains workers.old w × Contains w.reports r) }
    ensures collected { IfOk result (λ v. AreCollected (choices codes.now) v.reports v.log v.leaves.items) }
{
    codes.limits();
    let mut log = Log::new(alloc);
    let mut leaves = Vec::new(alloc);
    take_logs(alloc, workers, &mut log, &mut leaves)?;
    let reports = reports_of(alloc, workers)?;
    Ok(Collected {
        reports,
        log,
        leaves,
    })
}

/// The capsules that all workers have shared.
fn capsules_of(workers: &[Worker]) -> Capsules {
    let mut all = Capsules::none();
    for worker in workers {
        all.add(worker.capsules);
    }
    all
}

/// Runs the workers, and takes their logs and reports.
fn reported<R: Threads + Sync, G: Gate + Sync>(
    rt: &R,
    alloc: Global,
    codes: &Codes,
    tables: &YardTables<'_>,
    board: &Board,
    split: u8,
    jobs: &[Job],
    gate: &G,
    workers: &mut [Worker],
    piles: &mut [Vec<Reach>],
) -> Result<Collected, NoMemory>
    requires split { split ≤ 20 }
    requires tables { tables.now.yard ≡ codes.now }
    requires board { board.now.yard ≡ codes.now }
    requires few { length jobs.now ≤ 4 * length workers.old }
    requires dealt { All (IsDealt (choices codes.now) split) jobs.now }
    requires once { (x : ℕ) → times x jobs.now ≡ has x root }
    requires made { IsMadeFor board.now workers.old piles.old }
    ensures balanced { IfOk result (λ v. IsBalanced v.reports workers.new piles.new) }
    ensures told { IfOk result (λ v. AreTold (choices codes.now) v.reports workers.new) }
    ensures traced { IfOk result (λ v. AreTraced (choices codes.now) split v.reports workers.new piles.new) }
    ensures collected { IfOk result (λ v. AreCollected (choices codes.now) v.reports v.log v.leaves.items) }
    ensures seated { All (λ w. w.seat.place ≡ board.now) workers.new }
    ensures ready { AreReady workers.new piles.new × (length workers.new ≡ length piles.new) }
    ensures sizes { (length workers.new ≡ length workers.old) × (length piles.new ≡ length piles.old) }
{
    run_over(
        rt, alloc, codes, tables, board, split, jobs, gate, workers, piles,
    )?;
    collect(alloc, codes, workers)
}

/// The least number of halvings that gives at least twice as many jobs as workers.
fn enough(workers: u32) -> u8
    requires { (1 ≤ workers) × (workers ≤ 16) }
    ensures { 2 ^ result ≤ 4 * workers }
{
    if workers == 1 {
        return 1;
    }
    if workers == 2 {
        return 2;
    }
    if workers <= 4 {
        return 3;
    }
    if workers <= 8 {
        return 4;
    }
    5
}

/// How often the root is halved before the start.
fn depth(workers: u32, split: u8) -> u8
    requires { (1 ≤ workers) × (workers ≤ 16) }
    ensures { (result ≤ split) × (2 ^ result ≤ 4 * workers) }
{
    let most = enough(workers);
    if most < split {
        return most;
    }
    split
}

/// How long a job may be that is halved after the deal: one halving more than the deal's.
fn longest(depth: u8, split: u8) -> u8
    requires { depth ≤ split }
    ensures { (depth ≤ result) × (result ≤ split) }
{
    if depth == split { split } else { depth + 1 }
}

/// Finds the best plan of a yard by a crew of workers, each in a thread of its own where one can be made.
///
/// The root is halved and dealt; each worker solves jobs, halves some, and steals from others. After want of memory in any
/// worker all seats are joined and each deque is ended before the answer, as after success.
pub fn crew<R: Threads + Sync, G: Gate + Sync>(
    rt: &R,
    alloc: Global,
    codes: &Codes,
    workers: u32,
    split: u8,
    gate: &G,
) -> Result<Crewed, NoMemory>
    requires workers { (1 ≤ workers) × (workers ≤ 16) }
    requires split { split ≤ 20 }
    ensures best { IfOk result (λ v. IsBest (choices codes.now) v.best) }
    ensures last { IfOk result (λ v. IsLast (choices codes.now) v.best v.last) }
    ensures tile { IfOk result (λ v. Tile (map job_of_report v.reports)) }
    ensures short { IfOk result (λ v. All (λ r. r.job.length ≤ split) v.reports) }
    ensures sound { IfOk result (λ v. All (IsSound (choices codes.now)) v.reports) }
    ensures log { IfOk result (λ v. IsAccepted (choices codes.now) v.best v.log) }
    ensures text { IfOk result (λ v. HaveText v.log) }
{
    let (board, mut seat) = Board::new(alloc, codes)?;
    let tables = YardTables::new(alloc, codes)?;
    let depth = depth(workers, split);
    let jobs = cut(alloc, codes, depth)?;
    let (mut crew, mut piles) = make(alloc, &board, &mut seat, workers)?;
    let collected = reported(
        rt,
        alloc,
        codes,
        &tables,
        &board,
        longest(depth, split),
        jobs.as_slice(),
        gate,
        crew.as_mut_slice(),
        piles.as_mut_slice(),
    );
    let capsules = capsules_of(crew.as_slice());
    let stolen = settle(&board, &mut seat, crew, piles);
    let last = board.close(seat).word;
    keys_are_small(codes);
    reports_give_best(codes);
    let Collected {
        reports,
        mut log,
        leaves,
    } = collected?;
    let best = best_of(alloc, codes, reports.list())?;
    merge_leaves(alloc, codes, leaves, &mut log)?;
    records_are_proper(codes, &log, 0);
    Ok(Crewed {
        best,
        last,
        reports,
        log,
        stolen,
        capsules,
    })
}
