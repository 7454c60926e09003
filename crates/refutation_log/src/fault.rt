//! Faults of a log's text.
ghost use Rattle.std.specs.Prelude.{◌≡◌, IfOk};
ghost use Rattle.refutation_log.specs.Reading.{fault_line};
ghost use Rattle.refutation_log.specs.declared.fault.LogFault.TheVariants.{Memory};
ghost use Rattle.refutation_log.specs.declared.fault.Unread.TheVariants as unread;

use shape_exact::NoMemory;
use std::alloc::{AllocError, AllocFailed, Global};

/// Why bytes are not the text of a log.
#[derive(Clone, Copy, Debug, Drop, PartialEq, Eq)]
pub enum LogFault {
    /// The first line is not `log 1`.
    Head,
    /// This line, counted from 1, is no record and not `end`.
    Line(u64),
    /// The bytes run out before the line `end`.
    NoEnd,
    /// A byte follows the line `end`.
    Rest,
    /// Memory ran out.
    Memory,
}

impl From<AllocError> for LogFault {
    ghost from_gives = { λ _ e. e ≡ Memory };

    fn from(_: AllocError) -> LogFault {
        LogFault::Memory
    }
}

impl<T: Drop> From<AllocFailed<T>> for LogFault {
    ghost from_gives = { λ _ e. e ≡ Memory };

    fn from(_: AllocFailed<T>) -> LogFault {
        LogFault::Memory
    }
}

impl From<NoMemory> for LogFault {
    ghost from_gives = { λ _ e. e ≡ Memory };

    fn from(_: NoMemory) -> LogFault {
        LogFault::Memory
    }
}

impl LogFault {
    /// The line that tells the fault; the empty text for want of memory.
    pub fn line(&self, alloc: Global) -> Result<Vec<u8>, NoMemory>
        ensures { IfOk result (λ text. text.items ≡ fault_line self.now) }
    {
        let text = match self {
            LogFault::Head => format!(in alloc; "refused log 1 Head\n")?,
            LogFault::Line(number) => format!(in alloc; "refused log 2 Line {number}\n")?,
            LogFault::NoEnd => format!(in alloc; "refused log 3 NoEnd\n")?,
            LogFault::Rest => format!(in alloc; "refused log 4 Rest\n")?,
            LogFault::Memory => String::new(alloc),
        };
        Ok(text.into_bytes())
    }
}

/// Why a line gives no record.
#[derive(Clone, Copy, Debug, Drop, PartialEq, Eq)]
pub(crate) enum Unread {
    /// It is the text of none.
    Form,
    /// Memory ran out.
    Memory,
}

impl From<AllocError> for Unread {
    ghost from_gives = { λ _ e. e ≡ unread.Memory };

    fn from(_: AllocError) -> Unread {
        Unread::Memory
    }
}

impl<T: Drop> From<AllocFailed<T>> for Unread {
    ghost from_gives = { λ _ e. e ≡ unread.Memory };

    fn from(_: AllocFailed<T>) -> Unread {
        Unread::Memory
    }
}
