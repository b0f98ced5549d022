ghost use Rattle.std.specs.Prelude.{◌≡◌};
ghost use Rattle.doc_flatten.specs.declared.load_fault.LoadFault.TheVariants.{Memory};

use std::alloc::{AllocError, AllocFailed};

/// Why a text gave no documents.
#[derive(Clone, Copy, Debug, PartialEq, Eq)]
pub enum LoadFault {
    /// The number of the first excluded document, from 1 on; 0 where the text is no object and no array of objects.
    Json(u64),
    /// Memory was wanting.
    Memory,
}

impl From<AllocError> for LoadFault {
    ghost from_gives = { λ _ e. e ≡ Memory };

    fn from(_error: AllocError) -> LoadFault {
        LoadFault::Memory
    }
}

impl<T: Drop> From<AllocFailed<T>> for LoadFault {
    ghost from_gives = { λ _ e. e ≡ Memory };

    fn from(_error: AllocFailed<T>) -> LoadFault {
        LoadFault::Memory
    }
}
