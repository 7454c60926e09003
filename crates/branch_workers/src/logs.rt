//! The logs of the workers, put together to one.
ghost use Rattle.std.specs.Prelude.{slice_index, ◌≡◌, ◌++◌, map, All, IfOk};
ghost use Rattle.refutation_log.specs.Logs.{CiteEarlier, KeepsSteps};
ghost use Rattle.log_merge.specs.Leaves.{job_of};
ghost use Rattle.branch_workers.specs.Taken.{AreTaken, CanBeTaken, KeepsLeaves, KeepsExisting};
ghost use Rattle.branch_workers.specs.Work.{job_of_report};

use crate::Worker;
use branch_core::Report;
use log_merge::Leaf;
use log_parts::{Known, unite};
use refutation_log::Log;
use shape_exact::NoMemory;
use std::alloc::Global;

/// The number in a place of the list, and 0 past its end.
fn number_in(numbers: &[u64], place: u64) -> u64
    ensures { result ≡ slice_index numbers.now place }
{
    numbers.get(place as usize).copied().unwrap_or(0)
}

/// Takes a worker's log into the log of all, each box once, and adds a leaf for each of its reports.
fn take_log(
    alloc: Global,
    reports: &[Report],
    own: &Log,
    log: &mut Log,
    known: &mut Known,
    leaves: &mut Vec<Leaf>,
) -> Result<(), NoMemory>
    requires { CiteEarlier own.now }
    ensures jobs { IfOk result (λ _. map job_of leaves.new.items ≡ map job_of leaves.old.items ++ map job_of_report reports.now) }
    ensures leaves { IfOk result (λ _. KeepsLeaves log.old own.now log.new leaves.old.items reports.now leaves.new.items) }
    ensures exist { IfOk result (λ _. KeepsExisting log.old own.now log.new) }
    ensures steps { IfOk result (λ _. KeepsSteps log.old own.now log.new) }
{
    let numbers = unite(alloc, own, log, known)?;
    for report in reports {
        leaves.push(Leaf {
            job: report.job,
            record: number_in(numbers.as_slice(), report.refutation),
        })?;
    }
    Ok(())
}

/// Takes the workers' logs into the log of all, where a box that several have refuted stands once, and adds a leaf for each
/// report.
pub(crate) fn take_logs(
    alloc: Global,
    workers: &[Worker],
    log: &mut Log,
    leaves: &mut Vec<Leaf>,
) -> Result<(), NoMemory>
    requires { All CanBeTaken workers.now }
    ensures { IfOk result (λ _. AreTaken log.old leaves.old.items workers.now log.new leaves.new.items) }
{
    let mut known = Known::new(alloc);
    for worker in workers {
        take_log(
            alloc,
            worker.reports.list(),
            &worker.log,
            log,
            &mut known,
            leaves,
        )?;
    }
    Ok(())
}
