ghost use Rattle.std.specs.Prelude.{◌≡◌, ◌+◌, [], Some};
ghost use Rattle.sinew_io.specs.Kept.{told_bytes};
ghost use Rattle.sinew_io.specs.Whole.{GaveAtMost};
ghost use Rattle.script_reader.specs.Reader.{script_of};
ghost use Rattle.script_reader.specs.Script.{most_script_bytes};
ghost use Rattle.sinew_app.specs.Outcome.{IsUnwritten, IsDecided};
ghost use Rattle.sinew_app.specs.Sure.{PrintsRun, PrintsRefusal};

use crate::serial::sinew_serial;
use crate::status::Status;
use commit_core::{Core, Settings};
use sinew_io::{SureSink, SureSource};
use std::alloc::Global;

/// `sinew_serial` over devices that cannot fail: the text alone decides, or memory is wanting.
pub fn sinew_in_memory(
    alloc: Global,
    settings: Settings,
    store: &mut Core,
    source: &mut SureSource,
    sink: &mut SureSink,
) -> Status
    requires { store.old.commits ≡ [] }
    ensures done { result ≡ Status.Done →
        PrintsRun source.old.left source.new.left (told_bytes sink.old) (told_bytes sink.new) store.new.commits }
    ensures script { result ≡ Status.Script →
        PrintsRefusal source.old.left source.new.left (told_bytes sink.old) (told_bytes sink.new) store.new.commits }
    ensures memory { result ≡ Status.Memory → IsUnwritten (told_bytes sink.old) (told_bytes sink.new) store.new.commits }
    ensures most { GaveAtMost (most_script_bytes + 1) (Some source.old.left) (Some source.new.left) }
    ensures decided { IsDecided (script_of source.old.left) result }
{
    sinew_serial(alloc, settings, store, source, sink)
}
