//! A desk with files of one length that none can read.
ghost use Rattle.std.specs.Prelude.{◌≡◌};

use std::alloc::Global;
use yard_io::{Desk, Trouble};

/// Each file has the same number of bytes, and each read of it fails. It tells nothing.
#[derive(Drop)]
pub struct UnreadDesk {
    length: u64,
    said: Vec<u8>,
    faults: u64,
}

impl UnreadDesk {
    pub fn new(alloc: Global, length: u64) -> UnreadDesk {
        UnreadDesk {
            length,
            said: Vec::new(alloc),
            faults: 0,
        }
    }

    pub fn said(&self) -> &[u8] {
        self.said.as_slice()
    }
}

impl Desk for UnreadDesk {
    ghost use Rattle.std.specs.Prelude.{None, false};

    ghost file = { λ _ _. None };

    ghost tells = { λ _. false };

    ghost said = { λ _. None };

    ghost read_faults = { λ desk. desk.faults };

    ghost write_faults = { λ desk. desk.faults };

    fn length(&mut self, _name: &str) -> Result<u64, Trouble> {
        Ok(self.length)
    }

    fn read(&mut self, _name: &str, _at: u64, _buf: &mut [u8]) -> Result<usize, Trouble> {
        self.faults = self.faults.saturating_add(1);
        Err(Trouble::Failed)
    }

    fn fresh(&mut self, _name: &str) -> Result<(), Trouble> {
        Ok(())
    }

    fn append(&mut self, _name: &str, bytes: &[u8]) -> Result<usize, Trouble> {
        Ok(bytes.len())
    }

    fn say(&mut self, bytes: &[u8]) -> Result<usize, Trouble> {
        self.said.extend_from_slice(bytes)?;
        Ok(bytes.len())
    }
}
