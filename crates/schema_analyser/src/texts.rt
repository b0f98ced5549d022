ghost use Rattle.std.specs.Prelude.{◌≡◌, [], length, OnOk, OnErr};
ghost use Rattle.std.specs.Str.{bytes_eq};
ghost use Rattle.schema_analyser.specs.Different.{with_different};

use indexmap::IndexSet;
use std::alloc::{AllocError, Global};
use std::marker::Model;

/// Texts, each once, in the order in which they first came.
#[derive(Drop)]
pub(crate) struct Texts {
    set: IndexSet<String>,
}

impl Model for Texts {
    ghost use Rattle.std.specs.Prelude.{ℕ, List, map, string_bytes};

    ghost Value = { List (List ℕ) };

    ghost view = { λ t. map string_bytes t.set.keys };
}

impl Texts {
    pub(crate) fn new(alloc: Global) -> Texts
        ensures exact { result ≡ [] }
    {
        Texts {
            set: IndexSet::new(alloc),
        }
    }

    pub(crate) fn len(&self) -> usize
        ensures exact { result ≡ length self.now }
    {
        self.set.len()
    }

    /// Keeps a text, unless it is there. It is copied only where it is new.
    pub(crate) fn add(&mut self, alloc: Global, text: &str) -> Result<(), AllocError>
        ensures ok { OnOk result (self.new ≡ with_different bytes_eq self.old text.now) }
        ensures memory { OnErr result (self.new ≡ self.old) }
    {
        if self.set.contains(text) {
            return Ok(());
        }
        let copy = String::from_str(alloc, text)?;
        self.set.insert(copy)?;
        Ok(())
    }
}
