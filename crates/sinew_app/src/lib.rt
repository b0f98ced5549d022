//! Whole runs: a script from a source, its lines run one after another, the output to a sink.
//!
//! Where a run is done, what the sink took is the printing of one legal run of the script that the source gave. This
//! crate knows nothing of how a store keeps its documents. Read `specs/Run.antt` first: which runs are legal; then
//! `specs/Printing.antt` and `specs/Outcome.antt`.
#![tactic(auto)]

mod answering;
mod input;
mod input_fault;
mod laws;
mod output;
mod printing;
mod ran;
mod running;
mod serial;
mod status;
mod sure;
mod writing;

pub use laws::{
    a_script_has_a_serial_run, a_script_has_one_serial_run, what_is_printed_shows_the_run,
};
pub use serial::sinew_serial;
pub use status::Status;
pub use sure::sinew_in_memory;
