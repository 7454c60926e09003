//! How often reading and writing failed.
ghost use Rattle.std.specs.Prelude.{◌≡◌, ◌≤◌};
ghost use Rattle.yard_io.specs.Desk.{one_more};

use crate::Trouble;

/// A desk's two counts of faults, each of which stays at the greatest u64.
#[derive(Clone, Copy, Debug)]
pub struct Faults {
    reads: u64,
    writes: u64,
}

impl Faults {
    /// No fault.
    pub fn none() -> Faults
        ensures { (result.reads ≡ 0) × (result.writes ≡ 0) }
    {
        Faults {
            reads: 0,
            writes: 0,
        }
    }

    /// Counts a fault of reading, and answers it.
    pub fn of_reading(&mut self) -> Trouble
        ensures answer { result ≡ Trouble.Failed }
        ensures rose { self.new.reads ≡ one_more self.old.reads }
        ensures later { self.old.reads ≤ self.new.reads }
        ensures other { self.new.writes ≡ self.old.writes }
    {
        self.reads = self.reads.saturating_add(1);
        Trouble::Failed
    }

    /// Counts a fault of writing, and answers it.
    pub fn of_writing(&mut self) -> Trouble
        ensures answer { result ≡ Trouble.Failed }
        ensures rose { self.new.writes ≡ one_more self.old.writes }
        ensures later { self.old.writes ≤ self.new.writes }
        ensures other { self.new.reads ≡ self.old.reads }
    {
        self.writes = self.writes.saturating_add(1);
        Trouble::Failed
    }
}
