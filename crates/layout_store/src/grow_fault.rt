ghost use Rattle.std.specs.Prelude.{◌≡◌};
ghost use Rattle.layout_store.specs.declared.grow_fault.GrowFault.TheVariants.{Memory};

use std::alloc::{AllocError, AllocFailed};

/// Why a version was not added.
#[derive(Clone, Copy, Debug, PartialEq, Eq)]
pub enum GrowFault {
    /// There are as many versions as there may be, or there would be more attributes than there may be.
    Full,
    /// No memory.
    Memory,
}

impl From<AllocError> for GrowFault {
    ghost from_gives = { λ _ fault. fault ≡ Memory };

    fn from(_fault: AllocError) -> GrowFault {
        GrowFault::Memory
    }
}

impl<T: Drop> From<AllocFailed<T>> for GrowFault {
    ghost from_gives = { λ _ fault. fault ≡ Memory };

    fn from(_fault: AllocFailed<T>) -> GrowFault {
        GrowFault::Memory
    }
}
