ghost use Rattle.std.specs.Prelude.{◌≡◌, ◌<◌, Some, length};
ghost use Rattle.sinew_io.specs.Count.{HasCause};
ghost use Rattle.sinew_io.specs.Device.{Reads};
ghost use Rattle.sinew_io.specs.Memory.{mem_got, mem_read};
ghost use Rattle.sinew_io.specs.declared.got.Got.TheVariants.{Failed};

use crate::got::Got;
use crate::schedule::Schedule;
use crate::source::Source;
use crate::sure_source::SureSource;
use doc_values::{Bytes, Calls};
use std::marker::Model;

/// Bytes in memory as a source that fails at listed calls.
#[derive(Drop)]
pub struct MemSource {
    source: SureSource,
    schedule: Schedule,
}

impl Model for MemSource {
    ghost use Rattle.sinew_io.specs.Memory.{MemSupply};

    ghost Value = { MemSupply };

    ghost view = { λ s. record { supply = s.source; schedule = s.schedule } };
}

impl MemSource {
    pub fn new(bytes: Bytes, piece: usize, failing: Calls) -> Self
        requires { 0 < piece }
        ensures supply { result.supply ≡ record { left = bytes; piece = piece } }
        ensures schedule { result.schedule ≡ record { failing = failing; calls = 0; faults = 0 } }
    {
        MemSource {
            source: SureSource::new(bytes, piece),
            schedule: Schedule::new(failing),
        }
    }
}

impl Source for MemSource {
    ghost left = { λ s. Some s.supply.left };

    ghost faults = { λ s. s.schedule.faults };

    fn read(&mut self, buffer: &mut [u8]) -> Got
        requires { 0 < length buffer.old }
        ensures exact { Reads result (Some self.old.supply.left) (Some self.new.supply.left) buffer.new }
        ensures cause { HasCause self.old.schedule.faults self.new.schedule.faults (result ≡ Failed) }
        ensures answer { result ≡ mem_got self.old (length buffer.old) }
        ensures after { self.new ≡ mem_read self.old (length buffer.old) }
    {
        if self.schedule.next_fails() {
            return Got::Failed;
        }
        self.source.read(buffer)
    }
}
