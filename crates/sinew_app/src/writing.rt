ghost use Rattle.std.specs.Prelude.{◌≡◌, IfOk, IsOkAnd, OnErr};
ghost use Rattle.sinew_io.specs.Count.{HasCause};
ghost use Rattle.sinew_io.specs.Whole.{WritesAll, IsFailure};
ghost use Rattle.sinew_app.specs.Written.{WritesRun};
ghost use Rattle.sinew_app.specs.Printing.{refusal_text};

use crate::output::Output;
use crate::printing::print_run;
use crate::running::run_lines;
use commit_core::Core;
use script_reader::{Script, ScriptFault};
use sinew_io::{Sink, Written, write_all_of};
use std::alloc::{AllocError, Global};

/// Runs a script over a store of its own, and writes the printing of its run.
pub fn write_run<W: Sink>(
    alloc: Global,
    script: &Script,
    store: &mut Core,
    sink: &mut W,
) -> Result<Written, AllocError>
    ensures ok { IfOk result (λ written.
        WritesRun written (W.taken sink.old) (W.taken sink.new) script.now store.new.commits) }
    ensures memory_store { OnErr result (store.new ≡ store.old) }
    ensures memory_sink { OnErr result (W.taken sink.new ≡ W.taken sink.old) }
    ensures cause { HasCause (W.faults sink.old) (W.faults sink.new) (IsOkAnd result IsFailure) }
{
    let (run, commits) = run_lines(alloc, script)?;
    let out = print_run(alloc, script.items(), &run)?;
    *store = commits;
    Ok(write_all_of(sink, out.bytes()))
}

/// Writes the line for an input that is no script.
pub fn write_refusal<W: Sink>(
    alloc: Global,
    fault: &ScriptFault,
    sink: &mut W,
) -> Result<Written, AllocError>
    ensures ok { IfOk result (λ written.
        WritesAll written (W.taken sink.old) (W.taken sink.new) (refusal_text fault.now)) }
    ensures memory { OnErr result (W.taken sink.new ≡ W.taken sink.old) }
    ensures cause { HasCause (W.faults sink.old) (W.faults sink.new) (IsOkAnd result IsFailure) }
{
    let out = Output::new(alloc).refusal(fault)?;
    Ok(write_all_of(sink, out.bytes()))
}
