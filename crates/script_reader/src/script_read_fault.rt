ghost use Rattle.std.specs.Prelude.{◌≡◌};
ghost use Rattle.script_reader.specs.declared.script_read_fault.ScriptReadFault.TheVariants.{Memory};

use crate::script_fault::ScriptFault;
use std::alloc::{AllocError, AllocFailed};

/// Why no script was read.
#[derive(Clone, Copy, Debug, PartialEq, Eq)]
pub enum ScriptReadFault {
    /// The bytes are no script.
    Bad(ScriptFault),
    /// Memory was wanting.
    Memory,
}

impl From<AllocError> for ScriptReadFault {
    ghost from_gives = { λ _ e. e ≡ Memory };

    fn from(_error: AllocError) -> ScriptReadFault {
        ScriptReadFault::Memory
    }
}

impl<T: Drop> From<AllocFailed<T>> for ScriptReadFault {
    ghost from_gives = { λ _ e. e ≡ Memory };

    fn from(_error: AllocFailed<T>) -> ScriptReadFault {
        ScriptReadFault::Memory
    }
}
