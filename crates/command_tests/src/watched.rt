//! A desk in memory that takes so many bytes for files and so many to say, and then fails, and keeps the list of its calls.
ghost use Rattle.std.specs.Prelude.{◌≡◌};

use std::alloc::Global;
use yard_io::{Desk, QuietDesk, Trouble};

/// A call of a desk.
#[derive(Clone, Copy, Debug, PartialEq, Eq)]
pub enum Call {
    Length,
    Read,
    Fresh,
    Append,
    Say,
}

/// Stands on a `QuietDesk`. It adds `room` more bytes to files and says `left` more, and from then on each `append` and each
/// `say` fails. It tells nothing.
#[derive(Drop)]
pub struct WatchedDesk {
    quiet: QuietDesk,
    room: usize,
    left: usize,
    calls: Vec<Call>,
    faults: u64,
}

impl WatchedDesk {
    pub fn new(alloc: Global, quiet: QuietDesk, room: usize, left: usize) -> WatchedDesk {
        WatchedDesk {
            quiet,
            room,
            left,
            calls: Vec::new(alloc),
            faults: 0,
        }
    }

    pub fn said(&self) -> &[u8] {
        self.quiet.said()
    }

    pub fn file(&self, name: &str) -> Option<&[u8]> {
        self.quiet.file(name)
    }

    /// The calls that were made, in order.
    pub fn calls(&self) -> &[Call] {
        self.calls.as_slice()
    }
}

impl Desk for WatchedDesk {
    ghost use Rattle.std.specs.Prelude.{None, false};

    ghost file = { λ _ _. None };

    ghost tells = { λ _. false };

    ghost said = { λ _. None };

    ghost read_faults = { λ _. 0 };

    ghost write_faults = { λ desk. desk.faults };

    fn length(&mut self, name: &str) -> Result<u64, Trouble> {
        self.calls.push(Call::Length)?;
        self.quiet.length(name)
    }

    fn read(&mut self, name: &str, at: u64, buf: &mut [u8]) -> Result<usize, Trouble> {
        self.calls.push(Call::Read)?;
        self.quiet.read(name, at, buf)
    }

    fn fresh(&mut self, name: &str) -> Result<(), Trouble> {
        self.calls.push(Call::Fresh)?;
        self.quiet.fresh(name)
    }

    fn append(&mut self, name: &str, bytes: &[u8]) -> Result<usize, Trouble> {
        self.calls.push(Call::Append)?;
        let taken = self.room.min(bytes.len());
        if taken == 0 {
            self.faults = self.faults.saturating_add(1);
            return Err(Trouble::Failed);
        }
        let added = self.quiet.append(name, &bytes[..taken])?;
        self.room -= added;
        Ok(added)
    }

    fn say(&mut self, bytes: &[u8]) -> Result<usize, Trouble> {
        self.calls.push(Call::Say)?;
        let taken = self.left.min(bytes.len());
        if taken == 0 {
            self.faults = self.faults.saturating_add(1);
            return Err(Trouble::Failed);
        }
        let said = self.quiet.say(&bytes[..taken])?;
        self.left -= said;
        Ok(said)
    }
}
