//! The report on one job.
ghost use Rattle.std.specs.Prelude.{◌≡◌, ◌<◌, ◌≤◌, [], length, All, IfOk};
ghost use Rattle.plan_rule.specs.Jobs.{IsJob};
ghost use Rattle.plan_rule.specs.Yards.{choices};
ghost use Rattle.branch_workers.specs.Stock.{IsStocked};
ghost use Rattle.branch_workers.specs.Work.{HasSearched, IsEmptyRegion, IsKnown, IsSound};

use crate::opening::start_of;
use crate::regions::is_empty;
use crate::seat_bar::SeatBar;
use branch_core::{Report, solve_with};
use branch_search::Hints;
use code_table::Codes;
use incumbent_word::{Board, Seat};
use nogood_store::Nogoods;
use plan_rule::{Job, keys_are_small};
use refutation_log::Log;
use shape_exact::NoMemory;
use std::alloc::Global;
use tardiness_bounds::YardTables;

/// A report on a job that has a plan, or of a yard with a block that has no code. The search sees the board by a seat of
/// its own, which is joined to the worker's afterwards.
fn search(
    alloc: Global,
    codes: &Codes,
    tables: &YardTables<'_>,
    board: &Board,
    job: Job,
    bar: u64,
    seat: &mut Seat,
    store: &mut Nogoods,
    log: &mut Log,
    hints: &mut Hints,
) -> Result<Report, NoMemory>
    requires tables { tables.now.yard ≡ codes.now }
    requires job { IsJob job }
    requires known { IsKnown (choices codes.now) job }
    requires board { (seat.old.place ≡ board.now) × (board.now.yard ≡ codes.now) }
    requires stocked { IsStocked (choices codes.now) log.old store.old seat.old.seen }
    ensures place { seat.new.place ≡ seat.old.place }
    ensures job { IfOk result (λ r. r.job ≡ job) }
    ensures sound { IfOk result (IsSound (choices codes.now)) }
    ensures searched { IfOk result
        (HasSearched (choices codes.now) log.old log.new store.old store.new seat.old.seen seat.new.seen) }
{
    keys_are_small(codes);
    let start = start_of(alloc, codes, tables, job, bar)?;
    let mut bars = SeatBar::beside(board, seat);
    let report = solve_with(
        alloc, codes, tables, hints, job, &mut bars, store, log, start,
    );
    let SeatBar {
        board: _,
        seat: own,
    } = bars;
    board.join(seat, own);
    report
}

/// A report on the job. A region without a plan needs no search and no record.
pub(crate) fn report_on(
    alloc: Global,
    codes: &Codes,
    tables: &YardTables<'_>,
    board: &Board,
    job: Job,
    bar: u64,
    seat: &mut Seat,
    store: &mut Nogoods,
    log: &mut Log,
    hints: &mut Hints,
) -> Result<Report, NoMemory>
    requires tables { tables.now.yard ≡ codes.now }
    requires job { IsJob job }
    requires board { (seat.old.place ≡ board.now) × (board.now.yard ≡ codes.now) }
    requires stocked { IsStocked (choices codes.now) log.old store.old seat.old.seen }
    ensures place { seat.new.place ≡ seat.old.place }
    ensures job { IfOk result (λ r. r.job ≡ job) }
    ensures sound { IfOk result (IsSound (choices codes.now)) }
    ensures searched { IfOk result
        (HasSearched (choices codes.now) log.old log.new store.old store.new seat.old.seen seat.new.seen) }
{
    if is_empty(codes, job) {
        let seen = board.see(seat);
        return Ok(Report {
            job,
            best: None,
            seen,
            refutation: 0,
        });
    }
    search(
        alloc, codes, tables, board, job, bar, seat, store, log, hints,
    )
}
