//! Verdicts on a log.
ghost use Rattle.std.specs.Prelude.{◌≡◌, IfOk};
ghost use Rattle.log_checker.specs.Lines.{refused_line};

use shape_exact::NoMemory;
use std::alloc::Global;

/// What a checker says of a log.
#[derive(Clone, Copy, Debug, Drop, PartialEq, Eq)]
pub enum Verdict {
    /// No feasible plan is before the plan; or, where there is none, no plan is feasible.
    Accepted,
    /// The first reason why the log does not show that.
    Refused(Refused),
}

/// Why a log is not accepted. Steps and citations are numbers of records, counted from 0.
#[derive(Clone, Copy, Debug, Drop, PartialEq, Eq)]
pub enum Refused {
    /// The plan's codes of these two blocks clash.
    PlanNotFeasible(u8, u8),
    /// This record cites that number, which is of no earlier record.
    BadCite(u64, u64),
    /// This record's branch leaves that code uncovered.
    Uncovered(u64, u32),
    /// This record's bound is that number, which does not refute its side.
    BoundLow(u64, u32),
    /// The last record does not refute every plan, or there is no record.
    NotEmpty,
    /// This record names a block, a range of codes or a window that does not exist, or its side is no box or has a
    /// literal on the branched block.
    BadForm(u64),
    /// The plan's code of this block meets that fixed piece.
    PlanMeetsFixed(u8, u8),
}

impl Refused {
    /// The line that tells it.
    pub fn line(&self, alloc: Global) -> Result<Vec<u8>, NoMemory>
        ensures { IfOk result (λ text. text.items ≡ refused_line self.now) }
    {
        match *self {
            Refused::PlanNotFeasible(a, b) => {
                Ok(format!(in alloc; "not certified 1 PlanNotFeasible {a} {b}\n")?.into_bytes())
            }
            Refused::BadCite(step, cite) => {
                Ok(format!(in alloc; "not certified 2 BadCite {step} {cite}\n")?.into_bytes())
            }
            Refused::Uncovered(step, code) => {
                Ok(format!(in alloc; "not certified 3 Uncovered {step} {code}\n")?.into_bytes())
            }
            Refused::BoundLow(step, bound) => {
                Ok(format!(in alloc; "not certified 4 BoundLow {step} {bound}\n")?.into_bytes())
            }
            Refused::NotEmpty => Ok(format!(in alloc; "not certified 5 NotEmpty\n")?.into_bytes()),
            Refused::BadForm(step) => {
                Ok(format!(in alloc; "not certified 6 BadForm {step}\n")?.into_bytes())
            }
            Refused::PlanMeetsFixed(block, piece) => {
                Ok(format!(in alloc;
                    "not certified 7 PlanMeetsFixed {block} {piece}\n"
                )?.into_bytes())
            }
        }
    }
}
