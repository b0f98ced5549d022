ghost use Rattle.std.specs.Prelude.{◌≡◌, ◌<◌, ◌≤◌, Some, length};
ghost use Rattle.sinew_io.specs.Count.{HasCause};
ghost use Rattle.sinew_io.specs.Device.{Reads};
ghost use Rattle.sinew_io.specs.Supply.{supply_answer, supply_after};
ghost use Rattle.sinew_io.specs.declared.got.Got.TheVariants.{Failed};

use crate::got::Got;
use crate::source::Source;
use doc_values::Bytes;
use std::marker::Model;

/// Bytes in memory as a source that cannot fail.
#[derive(Drop)]
pub struct SureSource {
    bytes: Bytes,
    given: usize,
    piece: usize,
}

impl Model for SureSource {
    ghost use Rattle.std.specs.Prelude.{◌<◌, ◌≤◌, length, drop};
    ghost use Rattle.sinew_io.specs.Supply.{Supply};

    ghost Value = { Supply };

    ghost view = { λ s. record { left = drop s.given s.bytes; piece = s.piece } };

    ghost invariant = { λ s. (s.given ≤ length s.bytes) × (0 < s.piece) };
}

impl SureSource {
    pub fn new(bytes: Bytes, piece: usize) -> Self
        requires { 0 < piece }
        ensures exact { result ≡ record { left = bytes; piece = piece } }
    {
        SureSource {
            bytes,
            given: 0,
            piece,
        }
    }
}

impl Source for SureSource {
    ghost left = { λ s. Some s.left };

    ghost faults = { λ _. 0 };

    fn read(&mut self, buffer: &mut [u8]) -> Got
        requires { 0 < length buffer.old }
        ensures exact { Reads result (Some self.old.left) (Some self.new.left) buffer.new }
        ensures cause { HasCause 0 0 (result ≡ Failed) }
        ensures answer { result ≡ supply_answer self.old (length buffer.old) }
        ensures after { self.new ≡ supply_after self.old (length buffer.old) }
    {
        let left = &self.bytes.items()[self.given..];
        let count = self.piece.min(buffer.len()).min(left.len());
        if count == 0 {
            return Got::End;
        }
        buffer[..count].copy_from_slice(&left[..count]);
        self.given += count;
        Got::Bytes(count)
    }
}
