//! Why a call of a desk did not do its work.
ghost use Rattle.std.specs.Prelude.{◌≡◌};

use shape_exact::NoMemory;
use std::alloc::{AllocError, AllocFailed};

/// Why a call of a desk did not do its work: the device failed, or memory was wanted.
#[derive(Clone, Copy, Debug, PartialEq, Eq)]
pub enum Trouble {
    Failed,
    Memory,
}

impl From<NoMemory> for Trouble {
    ghost use Rattle.std.specs.Prelude.{◌≡◌};
    ghost use Rattle.yard_io.specs.declared.trouble.Trouble.TheVariants.{Memory};

    ghost from_gives = { λ _ t. t ≡ Memory };

    fn from(_refused: NoMemory) -> Trouble {
        Trouble::Memory
    }
}

impl From<AllocError> for Trouble {
    ghost use Rattle.std.specs.Prelude.{◌≡◌};
    ghost use Rattle.yard_io.specs.declared.trouble.Trouble.TheVariants.{Memory};

    ghost from_gives = { λ _ t. t ≡ Memory };

    fn from(_refused: AllocError) -> Trouble {
        Trouble::Memory
    }
}

impl<T: Drop> From<AllocFailed<T>> for Trouble {
    ghost use Rattle.std.specs.Prelude.{◌≡◌};
    ghost use Rattle.yard_io.specs.declared.trouble.Trouble.TheVariants.{Memory};

    ghost from_gives = { λ _ t. t ≡ Memory };

    fn from(_refused: AllocFailed<T>) -> Trouble {
        Trouble::Memory
    }
}
