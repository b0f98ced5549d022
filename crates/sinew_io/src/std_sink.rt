ghost use Rattle.std.specs.Prelude.{◌≡◌, ◌<◌, None, length};
ghost use Rattle.sinew_io.specs.Count.{HasCause};
ghost use Rattle.sinew_io.specs.Device.{Writes};
ghost use Rattle.sinew_io.specs.Edge.{EdgeWrites};
ghost use Rattle.sinew_io.specs.declared.put.Put.TheVariants.{Failed};

use crate::put::Put;
use crate::sink::Sink;
use std::io::Write;
use std::marker::Model;

/// A writer as a sink that tells no bytes and counts its errors, among them a write that takes nothing.
#[derive(Drop)]
pub struct StdSink<W: Write> {
    writer: W,
    faults: u64,
}

impl<W: Write> Model for StdSink<W> {
    ghost use Rattle.sinew_io.specs.Edge.{Edge};

    ghost Value = { Edge };

    ghost view = { λ s. record { known = W.contents s.writer; faults = s.faults } };
}

impl<W: Write> StdSink<W> {
    pub fn new(writer: W) -> StdSink<W>
        ensures exact { result ≡ record { known = W.contents writer; faults = 0 } }
    {
        StdSink { writer, faults: 0 }
    }
}

impl<W: Write> Sink for StdSink<W> {
    ghost taken = { λ _. None };

    ghost faults = { λ s. s.faults };

    fn write(&mut self, piece: &[u8]) -> Put
        requires { 0 < length piece.now }
        ensures exact { Writes result None None piece.now }
        ensures cause { HasCause self.old.faults self.new.faults (result ≡ Failed) }
        ensures edge { EdgeWrites result self.old self.new piece.now }
    {
        match self.writer.write(piece) {
            Ok(count) if count > 0 => Put::Bytes(count),
            _ => {
                self.faults = self.faults.saturating_add(1);
                Put::Failed
            }
        }
    }
}
