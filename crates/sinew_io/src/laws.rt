ghost use Rattle.std.specs.Prelude.{◌≡◌, ℕ, List, true};
ghost use Rattle.std.specs.Io.KnownBytes.{IsAtEnd};
ghost use Rattle.sinew_io.specs.Edge.{Edge, EdgeReads};
ghost use Rattle.sinew_io.specs.Kept.{Kept, kept_after};
ghost use Rattle.sinew_io.specs.declared.got.Got.TheVariants.{End};

/// The law that a reader which is at its end, and knows its bytes, has none left.
pub fn an_end_leaves_no_bytes()
    ensures { (before after : Edge) (buffer : List ℕ) → EdgeReads End before after buffer → IsAtEnd after.known }
{}

/// The law that a sink over memory which took more than it has room for has done so whatever it takes from then on.
pub fn what_is_over_stays_over()
    ensures { (kept : Kept) (text : List ℕ) → kept.over ≡ true → (kept_after kept text).over ≡ true }
{}
