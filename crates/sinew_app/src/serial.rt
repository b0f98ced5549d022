ghost use Rattle.std.specs.Prelude.{◌≡◌, ◌≢◌, ◌⊎◌, ◌+◌, [], List, ℕ, Some, Ok, Err};
ghost use Rattle.sinew_io.specs.Count.{HasCause, Rose};
ghost use Rattle.sinew_io.specs.Whole.{GaveAtMost};
ghost use Rattle.script_reader.specs.Reader.{script_of};
ghost use Rattle.script_reader.specs.Script.{most_script_bytes};
ghost use Rattle.script_reader.specs.declared.script_fault.ScriptFault.{ScriptFault};
ghost use Rattle.sinew_app.specs.Outcome.{IsDone, IsRefused, IsBroken, IsUnwritten, IsDecided};

use crate::input::read_input;
use crate::input_fault::InputFault;
use crate::status::Status;
use crate::writing::{write_refusal, write_run};
use commit_core::{Core, Settings};
use sinew_io::{Sink, Source};
use std::alloc::Global;

/// Reads a script from a source, runs its lines one after another, and writes the output to a sink.
pub fn sinew_serial<S: Source, W: Sink>(
    alloc: Global,
    settings: Settings,
    store: &mut Core,
    source: &mut S,
    sink: &mut W,
) -> Status
    requires { store.old.commits ≡ [] }
    ensures done { result ≡ Status.Done →
        IsDone (S.left source.old) (S.left source.new) (W.taken sink.old) (W.taken sink.new) store.new.commits }
    ensures script { result ≡ Status.Script →
        IsRefused (S.left source.old) (S.left source.new) (W.taken sink.old) (W.taken sink.new) store.new.commits }
    ensures read { result ≡ Status.Read → IsUnwritten (W.taken sink.old) (W.taken sink.new) store.new.commits }
    ensures write { result ≡ Status.Write →
        IsBroken (S.left source.old) (S.left source.new) (W.taken sink.old) (W.taken sink.new) store.new.commits }
    ensures memory { result ≡ Status.Memory → IsUnwritten (W.taken sink.old) (W.taken sink.new) store.new.commits }
    ensures words { result ≢ Status.Words }

    // Whatever the status, no more is read than one byte beyond what a script may have.
    ensures most { GaveAtMost (most_script_bytes + 1) (S.left source.old) (S.left source.new) }

    // A failed read or write comes only where the count of the device rose in this call.
    ensures read_cause { HasCause (S.faults source.old) (S.faults source.new) (result ≡ Status.Read) }
    ensures write_cause { HasCause (W.faults sink.old) (W.faults sink.new) (result ≡ Status.Write) }

    // Where the source tells its bytes and neither count rose, the input alone decides, or memory was wanting.
    ensures complete { (input : List ℕ) → S.left source.old ≡ Some input →
        (Rose (S.faults source.old) (S.faults source.new) → ⊥) → (Rose (W.faults sink.old) (W.faults sink.new) → ⊥) →
        IsDecided (script_of input) result }
{
    match read_input(alloc, source) {
        Ok(script) => Status::after(Status::Done, write_run(alloc, &script, store, sink)),
        Err(InputFault::Bad(fault)) => {
            Status::after(Status::Script, write_refusal(alloc, &fault, sink))
        }
        Err(InputFault::Failed) => Status::Read,
        Err(InputFault::Memory) => Status::Memory,
    }
}
