//! The records of a search can be written.
ghost use Rattle.std.specs.Prelude.{◌≡◌, ◌<◌, ◌≤◌, ℕ, List, Option, Some, length, slice_get};
ghost use Rattle.plan_rule.specs.Yards.{choices};
ghost use Rattle.refutation_log.specs.Citations.{AreCites};
ghost use Rattle.refutation_log.specs.Logs.{cites_of};
ghost use Rattle.refutation_log.specs.declared.record.Record.{Record};
ghost use Rattle.refutation_log.specs.Steps.{IsStepAt};
ghost use Rattle.branch_core.specs.Proper.{AreProper};

use code_table::Codes;
use refutation_log::{Log, Record};

/// The citations of a record ascend: those of every record do.
fn ascends(entry: &Record)
    ensures { AreCites (cites_of entry.now) }
{
    if let Record::Branch { cites, .. } = entry {
        let _ascending = cites.list();
    }
}

/// The citations of each record from a number on ascend.
fn citations_ascend(log: &Log, from: usize)
    requires { from ≤ length log.now }
    ensures { (i : ℕ) (r : Record) → from ≤ i → slice_get log.now i ≡ Some r → AreCites (cites_of r) }
{
    for i in from..log.records().len() {
        ascends(&log.records()[i]);
    }
}

/// Records that are steps against some answer can be written, cite earlier records alone, and name blocks of the yard.
pub fn records_are_proper(codes: &Codes, log: &Log, from: usize)
    requires { from ≤ length log.now }
    ensures { (t : Option (List ℕ)) → ((i : ℕ) → from ≤ i → i < length log.now → IsStepAt (choices codes.now) t log.now i)
        → AreProper (choices codes.now) from log.now }
{
    codes.limits();
    citations_ascend(log, from);
}
