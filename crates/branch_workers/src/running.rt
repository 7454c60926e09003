//! The crew.
ghost use Rattle.std.specs.Prelude.{map, OnOk, ◌*◌, ◌≡◌, ◌<◌, ◌≤◌, ℕ, length, All};
ghost use Rattle.std.specs.Thread.{IsSync};
ghost use Rattle.plan_rule.specs.Yards.{choices};
ghost use Rattle.branch_workers.specs.Deal.{IsDealt};
ghost use Rattle.branch_workers.specs.Gather.{AreReady, AreTracedBy, HasDealt, IsAccounted, IsDone, IsFresh, IsHonest, IsIdleWorker, IsMadeFor, IsTold, spot_of};
ghost use Rattle.log_merge.specs.Tiles.{has, times, root};

use crate::Worker;
use crate::deal::deal_out;
use crate::gather::gather;
use crate::working::work_with;
use code_table::Codes;
use incumbent_word::Board;
use plan_rule::Job;
use shape_exact::NoMemory;
use std::alloc::Global;
use std::thread::{Threads, join_mut};
use steal_rule::Reach;
use tardiness_bounds::YardTables;
use yard_io::Gate;

/// Runs the workers, by halves of their list.
#[cycle(halves)]
fn run_all<R: Threads + Sync, G: Gate + Sync>(
    rt: &R,
    alloc: Global,
    codes: &Codes,
    tables: &YardTables<'_>,
    board: &Board,
    split: u8,
    gate: &G,
    workers: &mut [Worker],
) -> Result<(), NoMemory>
    requires split { split ≤ 20 }
    requires tables { tables.now.yard ≡ codes.now }
    requires board { board.now.yard ≡ codes.now }
    requires fresh { All (IsFresh board.now) workers.old }
    requires dealt { All (HasDealt (choices codes.now) split) workers.old }
    ensures spots { map spot_of workers.new ≡ map spot_of workers.old }
    ensures idle { All IsIdleWorker workers.new }
    ensures accounted { OnOk result (IsAccounted workers.old workers.new) }
    ensures done { OnOk result (All (IsDone (choices codes.now) split) workers.new) }
{
    if workers.is_empty() {
        return Ok(());
    }
    if workers.len() == 1 {
        return work_with(alloc, codes, tables, board, split, &mut workers[0], gate);
    }
    let mid = workers.len() / 2;
    let (low, high) = workers.split_at_mut(mid);
    let (low, high) = both_halves(rt, alloc, codes, tables, board, split, gate, low, high);
    low?;
    high
}

/// Runs the two halves, each in a thread of its own where one can be made.
#[cycle(halves)]
fn both_halves<R: Threads + Sync, G: Gate + Sync>(
    rt: &R,
    alloc: Global,
    codes: &Codes,
    tables: &YardTables<'_>,
    board: &Board,
    split: u8,
    gate: &G,
    low: &mut [Worker],
    high: &mut [Worker],
) -> (Result<(), NoMemory>, Result<(), NoMemory>)
    requires split { split ≤ 20 }
    requires tables { tables.now.yard ≡ codes.now }
    requires board { board.now.yard ≡ codes.now }
    requires low_dealt { All (HasDealt (choices codes.now) split) low.old }
    requires high_dealt { All (HasDealt (choices codes.now) split) high.old }
    requires sizes { (0 < length low.old) × (0 < length high.old) }
    requires low { All (IsFresh board.now) low.old }
    requires high { All (IsFresh board.now) high.old }
    ensures low { (map spot_of low.new ≡ map spot_of low.old) × All IsIdleWorker low.new }
    ensures high { (map spot_of high.new ≡ map spot_of high.old) × All IsIdleWorker high.new }
    ensures low_done { OnOk result.0 (IsAccounted low.old low.new × All (IsDone (choices codes.now) split) low.new) }
    ensures high_done { OnOk result.1 (IsAccounted high.old high.new × All (IsDone (choices codes.now) split) high.new) }
{
    let mut first = || -> Result<(), NoMemory>
        requires { IsSync R.row × IsSync G.row × All (IsFresh board.now) low.now × (split ≤ 20) × (board.now.yard ≡ codes.now) × (tables.now.yard ≡ codes.now)
            × All (HasDealt (choices codes.now) split) low.now }
        ensures { (map spot_of low.exit.now ≡ map spot_of low.entry.now) × All IsIdleWorker low.exit.now × OnOk result (IsAccounted low.entry.now low.exit.now × All (IsDone (choices codes.entry.now) split) low.exit.now) }
    { run_all(rt, alloc, codes, tables, board, split, gate, low) };
    let mut second = || -> Result<(), NoMemory>
        requires { IsSync R.row × IsSync G.row × All (IsFresh board.now) high.now × (split ≤ 20) × (board.now.yard ≡ codes.now) × (tables.now.yard ≡ codes.now)
            × All (HasDealt (choices codes.now) split) high.now }
        ensures { (map spot_of high.exit.now ≡ map spot_of high.entry.now) × All IsIdleWorker high.exit.now × OnOk result (IsAccounted high.entry.now high.exit.now × All (IsDone (choices codes.entry.now) split) high.exit.now) }
    { run_all(rt, alloc, codes, tables, board, split, gate, high) };
    join_mut(rt, &mut first, &mut second)
}

/// Deals the jobs, lets the workers run, and gathers their reaches.
pub(crate) fn run_over<R: Threads + Sync, G: Gate + Sync>(
    rt: &R,
    alloc: Global,
    codes: &Codes,
    tables: &YardTables<'_>,
    board: &Board,
    split: u8,
    jobs: &[Job],
    gate: &G,
    workers: &mut [Worker],
    piles: &mut [Vec<Reach>],
) -> Result<(), NoMemory>
    requires split { split ≤ 20 }
    requires tables { tables.now.yard ≡ codes.now }
    requires board { board.now.yard ≡ codes.now }
    requires few { length jobs.now ≤ 4 * length workers.old }
    requires dealt { All (IsDealt (choices codes.now) split) jobs.now }
    requires once { (x : ℕ) → times x jobs.now ≡ has x root }
    requires made { IsMadeFor board.now workers.old piles.old }
    ensures sizes { (length workers.new ≡ length workers.old) × (length piles.new ≡ length piles.old) }
    ensures ready { AreReady workers.new piles.new × (length workers.new ≡ length piles.new) }
    ensures seated { All (λ w. w.seat.place ≡ board.now) workers.new }
    ensures told { OnOk result (IsTold workers.new piles.new) }
    ensures honest { OnOk result (All (IsHonest (choices codes.now)) workers.new) }
    ensures traced { OnOk result (AreTracedBy (choices codes.now) split workers.new piles.new) }
{
    deal_out(jobs, workers);
    let ran = run_all(rt, alloc, codes, tables, board, split, gate, workers);
    gather(workers, piles);
    ran
}
