ghost use Rattle.std.specs.Prelude.{◌≡◌, []};
ghost use Rattle.sinew_io.specs.Count.{HasCause};
ghost use Rattle.sinew_io.specs.Whole.{WritesAll, IsFailure};

use crate::put::Put;
use crate::sink::Sink;
use crate::written::Written;

/// Writes piece by piece until all bytes are taken, or until a call fails.
pub fn write_all_of<W: Sink>(sink: &mut W, bytes: &[u8]) -> Written
    ensures exact { WritesAll result (W.taken sink.old) (W.taken sink.new) bytes.now }
    ensures cause { HasCause (W.faults sink.old) (W.faults sink.new) (IsFailure result) }
    ensures empty { bytes.now ≡ [] → sink.new ≡ sink.old }
{
    let mut count = 0;
    while count < bytes.len() {
        match sink.write(&bytes[count..]) {
            Put::Bytes(more) => count += more,
            Put::Failed => return Written::Failed(count),
        }
    }
    Written::Done
}
