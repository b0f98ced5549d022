ghost use Rattle.std.specs.Prelude.{◌≡◌, ◌<◌, None, length};
ghost use Rattle.sinew_io.specs.Count.{HasCause};
ghost use Rattle.sinew_io.specs.Device.{Reads};
ghost use Rattle.sinew_io.specs.Edge.{EdgeReads};
ghost use Rattle.sinew_io.specs.declared.got.Got.TheVariants.{Failed};

use crate::got::Got;
use crate::source::Source;
use std::io::Read;
use std::marker::Model;

/// A reader as a source that tells no bytes and counts its errors.
#[derive(Drop)]
pub struct StdSource<R: Read> {
    reader: R,
    faults: u64,
}

impl<R: Read> Model for StdSource<R> {
    ghost use Rattle.sinew_io.specs.Edge.{Edge};

    ghost Value = { Edge };

    ghost view = { λ s. record { known = R.remaining s.reader; faults = s.faults } };
}

impl<R: Read> StdSource<R> {
    pub fn new(reader: R) -> StdSource<R>
        ensures exact { result ≡ record { known = R.remaining reader; faults = 0 } }
    {
        StdSource { reader, faults: 0 }
    }
}

impl<R: Read> Source for StdSource<R> {
    ghost left = { λ _. None };

    ghost faults = { λ s. s.faults };

    fn read(&mut self, buffer: &mut [u8]) -> Got
        requires { 0 < length buffer.old }
        ensures exact { Reads result None None buffer.new }
        ensures cause { HasCause self.old.faults self.new.faults (result ≡ Failed) }
        ensures edge { EdgeReads result self.old self.new buffer.new }
    {
        match self.reader.read(buffer) {
            Ok(0) => Got::End,
            Ok(count) => Got::Bytes(count),
            Err(_) => {
                self.faults = self.faults.saturating_add(1);
                Got::Failed
            }
        }
    }
}
