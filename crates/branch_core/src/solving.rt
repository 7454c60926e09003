//! The search of a job.
ghost use Rattle.std.specs.Prelude.{◌≡◌, ◌<◌, [], ℕ, List, Option, None, length, IfOk, IfSome, OnErr};
ghost use Rattle.plan_rule.specs.Choices.{blocks, count};
ghost use Rattle.plan_rule.specs.Jobs.{IsJob};
ghost use Rattle.plan_rule.specs.Plans.{IsFeasible};
ghost use Rattle.plan_rule.specs.Paths.{IsInRegion};
ghost use Rattle.plan_rule.specs.Reports.{IsBar};
ghost use Rattle.plan_rule.specs.Yards.{choices};
ghost use Rattle.branch_kernel.specs.States.{state};
ghost use Rattle.branch_kernel.specs.Stored.{IsStored};
ghost use Rattle.branch_kernel.specs.Growth.{Ends, IsReady};
ghost use Rattle.branch_core.specs.Proper.{AreProper};
ghost use Rattle.branch_core.specs.Solved.{IsSolvable, IsSolved, MakesOneRecord};

use crate::Report;
use crate::proper::records_are_proper;
use crate::region::solve_part;
use crate::single::take_empty;
use branch_kernel::{Bars, choices_are_known};
use branch_search::Hints;
use code_table::Codes;
use nogood_store::Nogoods;
use plan_rule::{Job, Plan, Region, job_has_one_part, region_of};
use refutation_log::Log;
use shape_exact::NoMemory;
use std::alloc::Global;
use tardiness_bounds::YardTables;

/// The report on a job where some block has no code.
fn solve_empty<B: Bars>(
    alloc: Global,
    codes: &Codes,
    job: Job,
    bars: &mut B,
    store: &Nogoods,
    log: &mut Log,
) -> Result<Report, NoMemory>
    requires served { B.yard bars.old ≡ codes.now }
    requires ready { IsReady (choices codes.now) job (state (B.bar bars.old) None log.old store.now) }
    requires empty { (b : ℕ) × (b < blocks (choices codes.now)) × (count (choices codes.now) b ≡ 0) }
    ensures served { B.yard bars.new ≡ codes.now }
    ensures home { B.home bars.new ≡ B.home bars.old }
    ensures bar { IsBar (choices codes.now) (B.bar bars.new) }
    ensures solved { IfOk result (λ r. IsSolved (choices codes.now) job (state (B.bar bars.old) None log.old store.now)
        (state (B.bar bars.new) r.best log.new store.now) r) }
    ensures left { OnErr result ((best : Option (List ℕ)) × Ends (choices codes.now)
        (state (B.bar bars.old) None log.old store.now) (state (B.bar bars.new) best log.new store.now)) }
    ensures proper { AreProper (choices codes.now) (length log.old) log.new }
{
    let first = log.records().len();
    let found = take_empty(alloc, codes, log);
    let seen = bars.see();
    records_are_proper(codes, log, first);
    let shown = found?;
    Ok(Report {
        job,
        best: None,
        seen,
        refutation: shown.number,
    })
}

/// The same as `solve`, with tables and hints of the yard that the caller keeps, and a plan of the region to begin with,
/// where there is one.
pub fn solve_with<B: Bars>(
    alloc: Global,
    codes: &Codes,
    tables: &YardTables<'_>,
    hints: &mut Hints,
    job: Job,
    bars: &mut B,
    store: &mut Nogoods,
    log: &mut Log,
    start: Option<Plan>,
) -> Result<Report, NoMemory>
    requires tables { tables.now.yard ≡ codes.now }
    requires job { IsJob job }
    requires start { IfSome start (λ p. IsFeasible (choices codes.now) p × IsInRegion (choices codes.now) job p) }
    requires served { B.yard bars.old ≡ codes.now }
    requires bar { IsBar (choices codes.now) (B.bar bars.old) }
    requires region { IsSolvable (choices codes.now) job }
    requires depth { store.old.prefix ≡ [] }
    requires stored { IsStored (choices codes.now) log.old store.old.nogoods }
    ensures served { B.yard bars.new ≡ codes.now }
    ensures home { B.home bars.new ≡ B.home bars.old }
    ensures bar { IsBar (choices codes.now) (B.bar bars.new) }
    ensures solved { IfOk result (λ r. IsSolved (choices codes.now) job (state (B.bar bars.old) None log.old store.old)
        (state (B.bar bars.new) r.best log.new store.new) r) }
    ensures left { OnErr result ((best : Option (List ℕ)) × Ends (choices codes.now)
        (state (B.bar bars.old) None log.old store.old) (state (B.bar bars.new) best log.new store.new)) }
    ensures proper { AreProper (choices codes.now) (length log.old) log.new }
    ensures depth { store.new.prefix ≡ [] }
    ensures one_record { IfOk result (λ _. MakesOneRecord (choices codes.now) job (B.bar bars.old) store.old.nogoods
        log.old log.new) }
{
    choices_are_known(codes);
    job_has_one_part(codes, job);
    codes.limits();
    match region_of(codes, job) {
        Region::Empty => solve_empty(alloc, codes, job, bars, store, log),
        Region::Part { exact, lo, hi } => solve_part(
            alloc,
            codes,
            tables,
            job,
            bars,
            store,
            log,
            hints,
            exact.codes(),
            lo,
            hi,
            start,
        ),
    }
}

/// The best plan of a job's region, as far as the bar leaves one, and the records that refute the rest.
///
/// The region has a plan, or some block has no code. The store's tags are numbers of records of this log whose results
/// contain its boxes. Want of memory may leave a longer log, a lower bar and more stored boxes, all as good as after a
/// report.
pub fn solve<B: Bars>(
    alloc: Global,
    codes: &Codes,
    job: Job,
    bars: &mut B,
    store: &mut Nogoods,
    log: &mut Log,
) -> Result<Report, NoMemory>
    requires job { IsJob job }
    requires served { B.yard bars.old ≡ codes.now }
    requires bar { IsBar (choices codes.now) (B.bar bars.old) }
    requires region { IsSolvable (choices codes.now) job }
    requires depth { store.old.prefix ≡ [] }
    requires stored { IsStored (choices codes.now) log.old store.old.nogoods }
    ensures served { B.yard bars.new ≡ codes.now }
    ensures home { B.home bars.new ≡ B.home bars.old }
    ensures bar { IsBar (choices codes.now) (B.bar bars.new) }
    ensures solved { IfOk result (λ r. IsSolved (choices codes.now) job (state (B.bar bars.old) None log.old store.old)
        (state (B.bar bars.new) r.best log.new store.new) r) }
    ensures left { OnErr result ((best : Option (List ℕ)) × Ends (choices codes.now)
        (state (B.bar bars.old) None log.old store.old) (state (B.bar bars.new) best log.new store.new)) }
    ensures proper { AreProper (choices codes.now) (length log.old) log.new }
    ensures depth { store.new.prefix ≡ [] }
    ensures one_record { IfOk result (λ _. MakesOneRecord (choices codes.now) job (B.bar bars.old) store.old.nogoods
        log.old log.new) }
{
    let tables = YardTables::new(alloc, codes)?;
    let mut hints = Hints::new(alloc, codes)?;
    solve_with(
        alloc, codes, &tables, &mut hints, job, bars, store, log, None,
    )
}
