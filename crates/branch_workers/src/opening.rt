//! The plan that a worker offers before its first job, and the plans with which its jobs begin.
ghost use Rattle.std.specs.Prelude.{◌≡◌, IfOk, IfSome};
ghost use Rattle.plan_rule.specs.Jobs.{IsJob};
ghost use Rattle.plan_rule.specs.Paths.{IsInRegion};
ghost use Rattle.plan_rule.specs.Plans.{IsFeasible};
ghost use Rattle.plan_rule.specs.Yards.{choices};

use code_table::Codes;
use incumbent_word::{Board, Seat};
use list_schedule::{start_plan, yard_plan};
use plan_rule::{Job, Plan, Region, region_of};
use shape_exact::NoMemory;
use std::alloc::Global;
use tardiness_bounds::YardTables;

/// How many list schedules a worker tries for its offer, and how many for a job.
const TRIES: u32 = 96;

/// Offers the best of some list schedules of the whole yard, which the worker's number draws, so that all workers begin
/// with a bar. A worker that is alone offers none: its first job begins with list schedules as it is.
pub(crate) fn offer_first(
    alloc: Global,
    codes: &Codes,
    tables: &YardTables<'_>,
    board: &Board,
    number: u32,
    others: usize,
    seat: &mut Seat,
) -> Result<(), NoMemory>
    requires tables { tables.now.yard ≡ codes.now }
    requires board { (seat.old.place ≡ board.now) × (board.now.yard ≡ codes.now) }
    ensures { seat.new.place ≡ seat.old.place }
{
    if others == 0 {
        return Ok(());
    }
    if let Some(plan) = yard_plan(alloc, codes, tables, TRIES, number)? {
        board.offer(seat, codes, &plan);
    }
    Ok(())
}

/// Whether a plan of the job's region with the total of the bar may have a key below the bar: the bar's path number is not
/// before the job's interval. Where there is no plan yet, no job is asked.
fn may_tie(job: Job, bar: u64) -> bool {
    bar != u64::MAX && u64::from(job.front) <= bar % 4_294_967_296
}

/// A plan with which the search of a job begins, where a plan of the region that costs as much as the bar would be better
/// than the bar's: the best of many list schedules of the region. Such a job would else look long for the first plan of that
/// total. In the regions after the bar's path number only a lesser total is of use, so the search's own few tries will do.
pub(crate) fn start_of(
    alloc: Global,
    codes: &Codes,
    tables: &YardTables<'_>,
    job: Job,
    bar: u64,
) -> Result<Option<Plan>, NoMemory>
    requires tables { tables.now.yard ≡ codes.now }
    requires job { IsJob job }
    ensures { IfOk result (λ o. IfSome o (λ p. IsFeasible (choices codes.now) p × IsInRegion (choices codes.now) job p)) }
{
    if !may_tie(job, bar) {
        return Ok(None);
    }
    let most = (bar / 4_294_967_296) as u32;
    match region_of(codes, job) {
        Region::Empty => Ok(None),
        Region::Part { exact, lo, hi } => start_plan(
            alloc,
            codes,
            tables,
            job,
            exact.codes(),
            lo,
            hi,
            most,
            TRIES,
        ),
    }
}
