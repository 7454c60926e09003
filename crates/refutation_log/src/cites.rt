//! Citations of earlier records.
ghost use Rattle.std.specs.Prelude.{◌≡◌, IfOk};
ghost use Rattle.refutation_log.specs.Citations.{AreCites};

use shape_exact::NoMemory;
use std::alloc::Global;
use std::marker::Model;

/// The numbers of the records that a record cites: strictly ascending, each below 10^18.
#[derive(Drop)]
pub struct Cites {
    list: Vec<u64>,
}

impl Model for Cites {
    ghost use Rattle.std.specs.Prelude.{List, ℕ};
    ghost use Rattle.refutation_log.specs.Citations.{AreCites};

    ghost Value = { List ℕ };

    ghost view = { λ s. s.list.items };

    ghost invariant = { λ s. AreCites s.list.items };
}

impl Cites {
    /// The citations of the list, copied.
    pub fn new(alloc: Global, list: &[u64]) -> Result<Cites, NoMemory>
        requires { AreCites list.now }
        ensures { IfOk result (λ c. c ≡ list.now) }
    {
        let list = Vec::from_slice(alloc, list)?;
        Ok(Cites { list })
    }

    /// The citations of the list, without a copy.
    pub fn from_list(list: Vec<u64>) -> Cites
        requires { AreCites list.items }
        ensures { result ≡ list.items }
    {
        Cites { list }
    }

    /// The numbers, strictly ascending.
    pub fn list(&self) -> &[u64]
        ensures value { result.now ≡ self.now }
        ensures ascending { AreCites result.now }
    {
        self.list.as_slice()
    }
}
