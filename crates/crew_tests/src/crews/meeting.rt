//! A gate at which two workers meet.

use std::sync::atomic::{AtomicU64, Ordering};
use yard_io::Gate;

/// Whoever calls first looks, at most so often, whether a worker of another number has called.
const LOOKS: u64 = 1_000_000_000;

/// The number of the worker that called first, and of one that called after it, each with 1 added; and whether the first
/// one has seen the other's.
#[derive(Drop)]
pub(crate) struct Meeting {
    first: AtomicU64,
    other: AtomicU64,
    met: AtomicU64,
}

impl Meeting {
    /// Nobody has called.
    pub(crate) fn new() -> Meeting {
        Meeting {
            first: AtomicU64::new(0),
            other: AtomicU64::new(0),
            met: AtomicU64::new(0),
        }
    }

    /// Whether the first caller has seen another's number.
    pub(crate) fn took_place(&self) -> bool {
        self.met.load(Ordering::SeqCst) != 0
    }

    /// Looks for another's number until it is there.
    fn look(&self) {
        for _ in 0..LOOKS {
            if self.other.load(Ordering::SeqCst) != 0 {
                self.met.store(1, Ordering::SeqCst);
                return;
            }
        }
    }
}

impl Gate for Meeting {
    fn at_job(&self, worker: u32, _job: u64) {
        let own = u64::from(worker) + 1;
        let found = self
            .first
            .compare_exchange(0, own, Ordering::SeqCst, Ordering::SeqCst);
        match found {
            Ok(_) => self.look(),
            Err(first) => {
                if first != own {
                    self.other.store(own, Ordering::SeqCst);
                }
            }
        }
    }
}
