ghost use Rattle.std.specs.Prelude.{◌≡◌};
ghost use Rattle.doc_flatten.specs.declared.flatten_fault.FlattenFault.TheVariants.{Memory};

use std::alloc::{AllocError, AllocFailed};

// Why a tree became no document.
#[derive(Clone, Copy, Debug, PartialEq, Eq)]
pub(crate) enum FlattenFault {
    // The rules exclude it.
    Excluded,
    Memory,
}

impl From<AllocError> for FlattenFault {
    ghost from_gives = { λ _ e. e ≡ Memory };

    fn from(_error: AllocError) -> FlattenFault {
        FlattenFault::Memory
    }
}

impl<T: Drop> From<AllocFailed<T>> for FlattenFault {
    ghost from_gives = { λ _ e. e ≡ Memory };

    fn from(_error: AllocFailed<T>) -> FlattenFault {
        FlattenFault::Memory
    }
}
