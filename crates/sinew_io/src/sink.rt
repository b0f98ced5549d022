ghost use Rattle.std.specs.Prelude.{◌≡◌, ◌<◌, ℕ, List, Option, length};
ghost use Rattle.sinew_io.specs.Count.{HasCause};
ghost use Rattle.sinew_io.specs.Device.{Writes};
ghost use Rattle.sinew_io.specs.declared.put.Put.TheVariants.{Failed};

use crate::put::Put;

/// A device that takes bytes.
pub trait Sink {
    /// The bytes taken so far, where the device tells them.
    ghost taken: { Self → Option (List ℕ) };

    /// How many calls have failed; it never falls, and stands still at its type's end.
    ghost faults: { Self → ℕ };

    /// Appends the first bytes of a piece.
    fn write(&mut self, piece: &[u8]) -> Put
        requires { 0 < length piece.now }
        ensures exact { Writes result (taken self.old) (taken self.new) piece.now }
        ensures cause { HasCause (faults self.old) (faults self.new) (result ≡ Failed) };
}
