//! The jobs that are dealt before the start.
ghost use Rattle.std.specs.Prelude.{◌≡◌, ◌+◌, ◌*◌, ◌^◌, ◌<◌, ◌≤◌, ℕ, map, length, All, IfOk};
ghost use Rattle.std.specs.List.{sum_by};
ghost use Rattle.plan_rule.specs.declared.job.Job.{Job};
ghost use Rattle.plan_rule.specs.Jobs.{IsJob};
ghost use Rattle.plan_rule.specs.Yards.{choices};
ghost use Rattle.branch_workers.specs.Deal.{IsDealt, IsHalvedOnto, IsRound, pushed_by, unpushed};
ghost use Rattle.log_merge.specs.Tiles.{has, times, root};

use crate::Worker;
use crate::regions::splits;
use code_table::Codes;
use plan_rule::{Job, halves};
use shape_exact::NoMemory;
use std::alloc::Global;

/// Adds the job, or its halves where its region is a part with a range.
fn push_halves(codes: &Codes, halved: &mut Vec<Job>, job: Job) -> Result<(), NoMemory>
    requires job { IsJob job × (job.length < 32) }
    ensures { IfOk result (λ _. IsHalvedOnto (choices codes.now) halved.old.items halved.new.items job) }
{
    if !splits(codes, job) {
        halved.push(job)?;
        return Ok(());
    }
    let Some((low, high)) = halves(job) else {
        unreachable!()
    };
    halved.push(low)?;
    halved.push(high)?;
    Ok(())
}

/// The jobs, each halved whose region is a part with a range.
fn halve_all(alloc: Global, codes: &Codes, jobs: &[Job], level: u8) -> Result<Vec<Job>, NoMemory>
    requires level { level < 20 }
    requires dealt { All (IsDealt (choices codes.now) level) jobs.now }
    ensures dealt { IfOk result (λ v. All (IsDealt (choices codes.now) (level + 1)) v.items) }
    ensures count { IfOk result (λ v. (x : ℕ) → times x v.items ≡ times x jobs.now) }
    ensures few { IfOk result (λ v. length v.items ≤ 2 * length jobs.now) }
{
    let mut halved = Vec::new(alloc);
    for job in jobs {
        push_halves(codes, &mut halved, *job)?;
    }
    Ok(halved)
}

/// The root, halved down to jobs of a length.
pub(crate) fn cut(alloc: Global, codes: &Codes, depth: u8) -> Result<Vec<Job>, NoMemory>
    requires depth { depth ≤ 20 }
    ensures dealt { IfOk result (λ v. All (IsDealt (choices codes.now) depth) v.items) }
    ensures count { IfOk result (λ v. (x : ℕ) → times x v.items ≡ has x root) }
    ensures few { IfOk result (λ v. length v.items ≤ 2 ^ depth) }
{
    let mut jobs = Vec::new(alloc);
    jobs.push(Job::root())?;
    for level in 0..depth {
        jobs = halve_all(alloc, codes, jobs.as_slice(), level)?;
    }
    Ok(jobs)
}

/// Gives each worker one more of the jobs, as long as there are any; answers which job is the next one.
fn deal_round(jobs: &[Job], next: usize, workers: &mut [Worker]) -> usize
    requires next { next ≤ length jobs.now }
    requires jobs { All IsJob jobs.now }
    requires room { All (λ w. length w.owner.pushed < 64) workers.old }
    ensures round { IsRound jobs.now next result workers.old workers.new (length workers.old) }
{
    let mut next = next;
    for i in 0..workers.len() {
        if next < jobs.len() {
            workers[i].owner.push(jobs[next]);
            next += 1;
        }
    }
    next
}

/// Deals the jobs round robin, at most four to a worker.
pub(crate) fn deal_out(jobs: &[Job], workers: &mut [Worker])
    requires jobs { All IsJob jobs.now }
    requires few { length jobs.now ≤ 4 * length workers.old }
    requires none { All (λ w. length w.owner.pushed ≡ 0) workers.old }
    ensures given { (h : Job → ℕ) → pushed_by h workers.new ≡ sum_by h jobs.now }
    ensures rest { map unpushed workers.new ≡ map unpushed workers.old }
    ensures four { All (λ w. length w.owner.pushed ≤ 4) workers.new }
{
    let first = deal_round(jobs, 0, workers);
    let second = deal_round(jobs, first, workers);
    let third = deal_round(jobs, second, workers);
    let _ = deal_round(jobs, third, workers);
}
