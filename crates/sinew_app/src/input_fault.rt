ghost use Rattle.std.specs.Prelude.{◌≡◌};
ghost use Rattle.sinew_app.specs.Fault.{fault_of_taking, fault_of_reading};

use script_reader::{ScriptFault, ScriptReadFault};
use sinew_io::TakeFault;

/// Why there is no script to run.
#[derive(Clone, Copy, Debug, PartialEq, Eq)]
pub enum InputFault {
    /// The input is no script.
    Bad(ScriptFault),
    /// The source failed.
    Failed,
    /// Memory was wanting.
    Memory,
}

impl From<TakeFault> for InputFault {
    ghost from_gives = { λ fault e. e ≡ fault_of_taking fault };

    fn from(fault: TakeFault) -> InputFault {
        match fault {
            TakeFault::Failed => InputFault::Failed,
            TakeFault::Memory => InputFault::Memory,
        }
    }
}

impl From<ScriptReadFault> for InputFault {
    ghost from_gives = { λ fault e. e ≡ fault_of_reading fault };

    fn from(fault: ScriptReadFault) -> InputFault {
        match fault {
            ScriptReadFault::Bad(fault) => InputFault::Bad(fault),
            ScriptReadFault::Memory => InputFault::Memory,
        }
    }
}
