ghost use Rattle.std.specs.Prelude.{◌≡◌};
ghost use Rattle.attr_catalog.specs.declared.add_fault.AddFault.TheVariants.{Memory};

use std::alloc::AllocError;

/// Why a pair was not added.
#[derive(Clone, Copy, Debug, PartialEq, Eq)]
pub enum AddFault {
    /// The pair is new, and there are as many attributes as a catalog may hold.
    Full,
    /// No memory.
    Memory,
}

impl From<AllocError> for AddFault {
    ghost from_gives = { λ _ fault. fault ≡ Memory };

    fn from(_fault: AllocError) -> AddFault {
        AddFault::Memory
    }
}
