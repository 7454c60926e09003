//! Faults of a plan's text.
ghost use Rattle.std.specs.Prelude.{◌≡◌, IfOk};
ghost use Rattle.plan_text.specs.Faults.{fault_line};
ghost use Rattle.plan_text.specs.declared.fault.PlanFault.TheVariants.{Memory};

use shape_exact::NoMemory;
use std::alloc::{AllocError, AllocFailed, Global};

/// Why bytes are not the text of a plan, nor of none. Lines are counted from 1.
#[derive(Clone, Copy, Debug, Drop, PartialEq, Eq)]
pub enum PlanFault {
    /// This line does not exist, has no line feed, or has not the form that is due at its place.
    Line(u64),
    /// In this line the block's name is not that of the block due there, or the plate's name is none of the yard's.
    Name(u64),
    /// What stands in this line is no placement of the block.
    NotAPlacement(u64),
    /// In this line a figure is told wrongly: the told and the true one.
    Figure(u64, u32, u32),
    /// A byte follows the last line.
    Rest,
    /// Memory ran out.
    Memory,
}

impl From<AllocError> for PlanFault {
    ghost from_gives = { λ _ e. e ≡ Memory };

    fn from(_: AllocError) -> PlanFault {
        PlanFault::Memory
    }
}

impl<T: Drop> From<AllocFailed<T>> for PlanFault {
    ghost from_gives = { λ _ e. e ≡ Memory };

    fn from(_: AllocFailed<T>) -> PlanFault {
        PlanFault::Memory
    }
}

impl From<NoMemory> for PlanFault {
    ghost from_gives = { λ _ e. e ≡ Memory };

    fn from(_: NoMemory) -> PlanFault {
        PlanFault::Memory
    }
}

impl PlanFault {
    /// The line that tells the fault; the empty text for want of memory.
    pub fn line(&self, alloc: Global) -> Result<Vec<u8>, NoMemory>
        ensures { IfOk result (λ text. text.items ≡ fault_line self.now) }
    {
        let text = match self {
            PlanFault::Line(line) => format!(in alloc; "refused plan 1 Line {line}\n")?,
            PlanFault::Name(line) => format!(in alloc; "refused plan 2 Name {line}\n")?,
            PlanFault::NotAPlacement(line) => {
                format!(in alloc; "refused plan 3 NotAPlacement {line}\n")?
            }
            PlanFault::Figure(line, told, is) => {
                format!(in alloc; "refused plan 4 Figure {line} {told} {is}\n")?
            }
            PlanFault::Rest => format!(in alloc; "refused plan 5 Rest\n")?,
            PlanFault::Memory => String::new(alloc),
        };
        Ok(text.into_bytes())
    }
}
