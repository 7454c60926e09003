//! Workers and their reports.
ghost use Rattle.std.specs.Prelude.{◌≡◌, ◌++◌, ◌∷◌, [], IfOk};

use branch_core::Report;
use incumbent_word::Seat;
use nogood_store::Nogoods;
use refutation_log::Log;
use shape_exact::NoMemory;
use std::alloc::Global;
use std::marker::Model;
use steal_rule::{Owner, Reach};

/// Reports of jobs. Contracts see their list.
#[derive(Drop)]
pub struct Reports {
    pub(crate) list: Vec<Report>,
}

impl Model for Reports {
    ghost use Rattle.std.specs.Prelude.{List};
    ghost use Rattle.branch_core.specs.declared.report.Report.{Report};

    ghost Value = { List Report };

    ghost view = { λ s. s.list.items };
}

impl Reports {
    /// No report.
    pub fn new(alloc: Global) -> Result<Reports, NoMemory>
        ensures { IfOk result (λ r. r ≡ []) }
    {
        Ok(Reports {
            list: Vec::new(alloc),
        })
    }

    /// The reports.
    pub fn list(&self) -> &[Report]
        ensures { result.now ≡ self.now }
    {
        self.list.as_slice()
    }

    /// Takes in the other reports, after its own. A refusal leaves both as they were.
    pub(crate) fn take_in(&mut self, others: &mut Reports) -> Result<(), NoMemory>
        ensures { IfOk result (λ _. self.new ≡ self.old ++ others.old) }
    {
        self.list.append(&mut others.list)?;
        Ok(())
    }

    /// One report more, last.
    pub(crate) fn push(&mut self, report: Report) -> Result<(), NoMemory>
        ensures { IfOk result (λ _. self.new ≡ self.old ++ report ∷ []) }
    {
        self.list.push(report)?;
        Ok(())
    }
}

/// How many capsules a worker has posted, and how many it has taken in. These numbers are only told: they depend on the order
/// of the workers' steps, and no contract speaks of them.
#[derive(Clone, Copy, Debug, PartialEq, Eq)]
pub struct Capsules {
    pub posted: u64,
    pub taken: u64,
}

impl Capsules {
    /// None yet.
    pub fn none() -> Capsules {
        Capsules {
            posted: 0,
            taken: 0,
        }
    }

    /// Counts what came of one job.
    pub(crate) fn count(&mut self, posted: bool, taken: bool) {
        self.posted = self.posted.saturating_add(u64::from(posted));
        self.taken = self.taken.saturating_add(u64::from(taken));
    }

    /// Adds another worker's.
    pub(crate) fn add(&mut self, other: Capsules) {
        self.posted = self.posted.saturating_add(other.posted);
        self.taken = self.taken.saturating_add(other.taken);
    }
}

/// One of the crew: its seat at the board, its own deque, its reaches into the others' deques, the boxes that it has
/// learned, what it has reported and logged, and how many capsules it has shared.
#[derive(Drop)]
pub struct Worker {
    pub number: u32,
    pub seat: Seat,
    pub owner: Owner,
    pub reaches: Vec<Reach>,
    pub store: Nogoods,
    pub reports: Reports,
    pub log: Log,
    pub capsules: Capsules,
}
