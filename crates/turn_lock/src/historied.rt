//! What a lock can hand on.
ghost use Rattle.std.specs.Prelude.{◌≡◌, ◌^◌, ◌<◌, ℕ, List, length};

/// A value with a history: a list of entries, each of one caller.
pub trait Historied {
    type Entry;

    // All that was entered, in order.
    ghost history: { Self → List Self.Entry };
    // The number of the caller that made an entry.
    ghost caller_of: { Self.Entry → ℕ };

    /// The length of the history. It takes no memory.
    fn entries(&self) -> u64
        requires { length (history self.now) < 2 ^ 64 }
        ensures { result ≡ length (history self.now) };
}
