//! The program: a script from standard input, its output to standard output, the status as the exit code.
//!
//! All that is promised of a run is promised of `sinew_serial`; this crate only joins it to the process.
//! Read the clauses of `sinew_app/src/serial.rt`.
#![tactic(auto)]

use commit_core::{Core, Settings};
use sinew_app::sinew_serial;
use sinew_io::{StdSink, StdSource};
use std::process::ExitCode;

fn main(rt: HostRuntime) -> ExitCode {
    let mut store = Core::new(rt.alloc());
    let mut source = StdSource::new(rt.stdin());
    let mut sink = StdSink::new(rt.stdout());
    let status = sinew_serial(
        rt.alloc(),
        Settings::usual(),
        &mut store,
        &mut source,
        &mut sink,
    );
    ExitCode::from(status.code())
}
