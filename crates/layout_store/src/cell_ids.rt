ghost use Rattle.std.specs.Prelude.{◌≡◌, ◌<◌, [], ℕ, length, get_or, OnOk};

use std::alloc::{AllocError, Global};
use std::marker::Model;

/// The numbers of the attributes that have a cell, or once had one, in ascending order.
#[derive(Drop)]
pub(crate) struct CellIds {
    ids: Vec<u32>,
}

impl Model for CellIds {
    ghost use Rattle.std.specs.Prelude.{List, ℕ};
    ghost use Rattle.layout_store.specs.Listed.{Rises};

    ghost Value = { List ℕ };

    ghost view = { λ c. c.ids.items };

    ghost invariant = { λ c. Rises c.ids.items };
}

impl CellIds {
    ghost use Rattle.layout_store.specs.Listed.{IsListed, Rises};

    pub(crate) fn new(alloc: Global) -> CellIds
        ensures exact { result ≡ [] }
    {
        CellIds {
            ids: Vec::new(alloc),
        }
    }

    /// How many numbers there are.
    pub(crate) fn len(&self) -> usize
        ensures exact { result ≡ length self.now }
        ensures kept { Rises self.now }
    {
        self.ids.len()
    }

    /// The number at a place.
    pub(crate) fn id(&self, place: usize) -> u32
        requires { place < length self.now }
        ensures exact { result ≡ get_or self.now place 0 }
    {
        self.ids[place]
    }

    /// Lists a number, unless it stands there.
    pub(crate) fn add(&mut self, id: u32) -> Result<(), AllocError>
        ensures ok { OnOk result (IsListed id self.new) }
        ensures kept { (i : ℕ) → IsListed i self.old → IsListed i self.new }
    {
        if let Err(place) = self.ids.binary_search(&id) {
            self.ids.insert(place, id)?;
        }
        Ok(())
    }
}
