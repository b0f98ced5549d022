ghost use Rattle.std.specs.Prelude.{◌≡◌, ◌<◌, ◌≤◌, [], false, length, IfOk, IsTrue};
ghost use Rattle.sinew_io.specs.Count.{HasCause};
ghost use Rattle.sinew_io.specs.Device.{Writes};
ghost use Rattle.sinew_io.specs.Kept.{told_bytes, kept_after};
ghost use Rattle.sinew_io.specs.declared.put.Put.TheVariants.{Bytes, Failed};

use crate::put::Put;
use crate::sink::Sink;
use std::alloc::{AllocError, Global};
use std::marker::Model;

/// A sink over memory that cannot fail, with room held from the start.
#[derive(Drop)]
pub struct SureSink {
    bytes: Vec<u8>,
    room: usize,
    over: bool,
}

impl Model for SureSink {
    ghost use Rattle.std.specs.Prelude.{◌≡◌, ◌≤◌, true, length, vec_len, vec_capacity};
    ghost use Rattle.sinew_io.specs.Kept.{Kept};

    ghost Value = { Kept };

    ghost view = { λ s. record { bytes = s.bytes.items; room = s.room; over = s.over } };

    ghost invariant = { λ s. (length s.bytes.items ≤ s.room) × (s.room ≤ vec_capacity s.bytes) × (s.over ≡ true → length s.bytes.items ≡ s.room) };
}

impl SureSink {
    pub fn new(alloc: Global, room: usize) -> Result<SureSink, AllocError>
        ensures ok { IfOk result (λ s. s ≡ record { bytes = []; room = room; over = false }) }
    {
        Ok(SureSink {
            bytes: Vec::with_capacity(alloc, room)?,
            room,
            over: false,
        })
    }

    /// The bytes kept, also where the sink no longer tells them.
    pub fn bytes(&self) -> &[u8]
        ensures exact { result.now ≡ self.now.bytes }
        ensures within { length self.now.bytes ≤ self.now.room }
        ensures full { IsTrue self.now.over → length self.now.bytes ≡ self.now.room }
    {
        self.bytes.as_slice()
    }
}

impl Sink for SureSink {
    ghost taken = { told_bytes };

    ghost faults = { λ _. 0 };

    fn write(&mut self, piece: &[u8]) -> Put
        requires { 0 < length piece.now }
        ensures exact { Writes result (told_bytes self.old) (told_bytes self.new) piece.now }
        ensures cause { HasCause 0 0 (result ≡ Failed) }
        ensures answer { result ≡ Bytes (length piece.now) }
        ensures after { self.new ≡ kept_after self.old piece.now }
    {
        let room = self.room - self.bytes.len();
        let kept = room.min(piece.len());
        self.bytes.extend_from_slice(&piece[..kept]).unwrap();
        self.over |= kept < piece.len();
        Put::Bytes(piece.len())
    }
}
