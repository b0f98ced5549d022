ghost use Rattle.std.specs.Prelude.{◌≡◌, ◌<◌, ℕ, List, Option, length};
ghost use Rattle.sinew_io.specs.Count.{HasCause};
ghost use Rattle.sinew_io.specs.Device.{Reads};
ghost use Rattle.sinew_io.specs.declared.got.Got.TheVariants.{Failed};

use crate::got::Got;

/// A device that gives bytes.
pub trait Source {
    /// The bytes still to come, where the device tells them.
    ghost left: { Self → Option (List ℕ) };

    /// How many calls have failed; it never falls, and stands still at its type's end.
    ghost faults: { Self → ℕ };

    /// Puts the next bytes at the front of the buffer.
    fn read(&mut self, buffer: &mut [u8]) -> Got
        requires { 0 < length buffer.old }
        ensures exact { Reads result (left self.old) (left self.new) buffer.new }
        ensures cause { HasCause (faults self.old) (faults self.new) (result ≡ Failed) };
}
