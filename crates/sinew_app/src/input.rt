ghost use Rattle.std.specs.Prelude.{◌≡◌, ◌+◌, Err, IfOk};
ghost use Rattle.sinew_io.specs.Count.{HasCause};
ghost use Rattle.sinew_io.specs.Whole.{GaveAtMost};
ghost use Rattle.script_reader.specs.Script.{most_script_bytes};
ghost use Rattle.script_reader.specs.declared.script_fault.ScriptFault.{ScriptFault as ScriptFaultOf};
ghost use Rattle.sinew_app.specs.Input.{GaveScript, GaveNoScript};

use crate::input_fault::InputFault;
use script_reader::{MOST_BYTES, Script, ScriptFault, Why, read_script};
use sinew_io::{Source, read_up_to};
use std::alloc::Global;

/// The fault of an input that is longer than a script may be.
const TOO_LONG: ScriptFault = ScriptFault {
    line: 0,
    why: Why::Size,
};

/// Reads the script that a source gives.
pub fn read_input<S: Source>(alloc: Global, source: &mut S) -> Result<Script, InputFault>
    ensures ok { IfOk result (λ lines. GaveScript (S.left source.old) (S.left source.new) lines) }
    ensures bad { (fault : ScriptFaultOf) → result ≡ Err (InputFault.Bad fault) →
        GaveNoScript (S.left source.old) (S.left source.new) fault }
    ensures most { GaveAtMost (most_script_bytes + 1) (S.left source.old) (S.left source.new) }
    ensures cause { HasCause (S.faults source.old) (S.faults source.new) (result ≡ Err InputFault.Failed) }
{
    let taken = read_up_to(alloc, source, MOST_BYTES)?;
    if taken.more {
        return Err(InputFault::Bad(TOO_LONG));
    }
    let script = read_script(alloc, taken.bytes.items())?;
    Ok(script)
}
