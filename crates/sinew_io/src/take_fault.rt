ghost use Rattle.std.specs.Prelude.{◌≡◌};
ghost use Rattle.sinew_io.specs.declared.take_fault.TakeFault.TheVariants.{Memory};

use std::alloc::{AllocError, AllocFailed};

/// Why a source was not read to its end.
#[derive(Clone, Copy, Debug, PartialEq, Eq)]
pub enum TakeFault {
    /// The source failed.
    Failed,
    /// Memory was wanting.
    Memory,
}

impl From<AllocError> for TakeFault {
    ghost from_gives = { λ _ e. e ≡ Memory };

    fn from(_error: AllocError) -> TakeFault {
        TakeFault::Memory
    }
}

impl<T: Drop> From<AllocFailed<T>> for TakeFault {
    ghost from_gives = { λ _ e. e ≡ Memory };

    fn from(_error: AllocFailed<T>) -> TakeFault {
        TakeFault::Memory
    }
}
