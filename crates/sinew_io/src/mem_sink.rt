ghost use Rattle.std.specs.Prelude.{◌≡◌, ◌<◌, ◌≤◌, [], false, length, IfOk, IsTrue};
ghost use Rattle.sinew_io.specs.Count.{HasCause};
ghost use Rattle.sinew_io.specs.Device.{Writes};
ghost use Rattle.sinew_io.specs.Kept.{told_bytes};
ghost use Rattle.sinew_io.specs.Memory.{mem_put, mem_written};
ghost use Rattle.sinew_io.specs.declared.put.Put.TheVariants.{Failed};

use crate::put::Put;
use crate::schedule::Schedule;
use crate::sink::Sink;
use crate::sure_sink::SureSink;
use doc_values::Calls;
use std::alloc::{AllocError, Global};
use std::marker::Model;

/// A sink over memory that fails at listed calls, with room held from the start.
#[derive(Drop)]
pub struct MemSink {
    sink: SureSink,
    piece: usize,
    schedule: Schedule,
}

impl Model for MemSink {
    ghost use Rattle.std.specs.Prelude.{◌<◌};
    ghost use Rattle.sinew_io.specs.Memory.{MemKept};

    ghost Value = { MemKept };

    ghost view = { λ s. record { kept = s.sink; piece = s.piece; schedule = s.schedule } };

    ghost invariant = { λ s. 0 < s.piece };
}

impl MemSink {
    pub fn new(
        alloc: Global,
        room: usize,
        piece: usize,
        failing: Calls,
    ) -> Result<MemSink, AllocError>
        requires { 0 < piece }
        ensures kept { IfOk result (λ s. s.kept ≡ record { bytes = []; room = room; over = false }) }
        ensures piece { IfOk result (λ s. s.piece ≡ piece) }
        ensures schedule { IfOk result (λ s. s.schedule ≡ record { failing = failing; calls = 0; faults = 0 }) }
    {
        Ok(MemSink {
            sink: SureSink::new(alloc, room)?,
            piece,
            schedule: Schedule::new(failing),
        })
    }

    /// The bytes kept, also where the sink no longer tells them.
    pub fn bytes(&self) -> &[u8]
        ensures exact { result.now ≡ self.now.kept.bytes }
        ensures within { length self.now.kept.bytes ≤ self.now.kept.room }
        ensures full { IsTrue self.now.kept.over → length self.now.kept.bytes ≡ self.now.kept.room }
    {
        self.sink.bytes()
    }
}

impl Sink for MemSink {
    ghost taken = { λ s. told_bytes s.kept };

    ghost faults = { λ s. s.schedule.faults };

    fn write(&mut self, piece: &[u8]) -> Put
        requires { 0 < length piece.now }
        ensures exact { Writes result (told_bytes self.old.kept) (told_bytes self.new.kept) piece.now }
        ensures cause { HasCause self.old.schedule.faults self.new.schedule.faults (result ≡ Failed) }
        ensures answer { result ≡ mem_put self.old piece.now }
        ensures after { self.new ≡ mem_written self.old piece.now }
    {
        if self.schedule.next_fails() {
            return Put::Failed;
        }
        let count = self.piece.min(piece.len());
        self.sink.write(&piece[..count])
    }
}
