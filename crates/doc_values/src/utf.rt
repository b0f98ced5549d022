ghost use Rattle.std.specs.Prelude.{◌≡◌, List, ℕ, IfOk, string_bytes};

use std::alloc::{AllocError, Global};
use std::marker::Model;

/// A text of its own, seen as its UTF-8 bytes.
#[derive(Drop)]
pub struct Utf {
    text: String,
}

impl Model for Utf {
    ghost Value = { List ℕ };

    ghost view = { λ u. string_bytes u.text };
}

impl Utf {
    /// A copy of a text.
    pub fn of(alloc: Global, text: &str) -> Result<Utf, AllocError>
        ensures ok { IfOk result (λ u. u ≡ text.now) }
    {
        Ok(Utf {
            text: String::from_str(alloc, text)?,
        })
    }

    /// The text.
    pub fn text(&self) -> &str
        ensures exact { result.now ≡ self.now }
    {
        self.text.as_str()
    }

    /// An equal text of its own.
    pub fn copy(&self) -> Result<Utf, AllocError>
        ensures ok { IfOk result (λ u. u ≡ self.now) }
    {
        Ok(Utf {
            text: self.text.clone()?,
        })
    }
}

impl From<String> for Utf {
    ghost from_gives = { λ s u. u ≡ string_bytes s };

    fn from(text: String) -> Utf {
        Utf { text }
    }
}
