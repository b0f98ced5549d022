ghost use Rattle.std.specs.Prelude.{◌≡◌};
ghost use Rattle.row_versions.specs.declared.append_fault.AppendFault.TheVariants.{Memory};

use std::alloc::AllocError;

/// Why a version was not appended.
#[derive(Clone, Copy, Debug, PartialEq, Eq)]
pub enum AppendFault {
    /// There are as many versions as there may be.
    Full,
    /// No memory.
    Memory,
}

impl From<AllocError> for AppendFault {
    ghost from_gives = { λ _ fault. fault ≡ Memory };

    fn from(_fault: AllocError) -> AppendFault {
        AppendFault::Memory
    }
}
