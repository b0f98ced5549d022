ghost use Rattle.std.specs.Prelude.{◌≡◌, ◌∷◌, ◌++◌, [], List, ℕ, OnOk};

use std::alloc::{AllocError, Global};
use std::marker::Model;

/// A list of positions of lines in a script, from 0 on.
#[derive(Drop)]
pub struct Positions {
    items: Vec<u32>,
}

impl Model for Positions {
    ghost Value = { List ℕ };

    ghost view = { λ p. p.items.items };
}

impl Positions {
    pub(crate) fn new(alloc: Global) -> Positions
        ensures exact { result ≡ [] }
    {
        Positions {
            items: Vec::new(alloc),
        }
    }

    pub fn from_vec(items: Vec<u32>) -> Self
        ensures exact { result ≡ items.items }
    {
        Positions { items }
    }

    pub(crate) fn into_vec(self) -> Vec<u32>
        ensures exact { result.items ≡ self }
    {
        self.items
    }

    pub fn items(&self) -> &[u32]
        ensures exact { result.now ≡ self.now }
    {
        self.items.as_slice()
    }

    pub(crate) fn push(&mut self, position: u32) -> Result<(), AllocError>
        ensures ok { OnOk result (self.new ≡ self.old ++ position ∷ []) }
    {
        self.items.push(position)?;
        Ok(())
    }
}
