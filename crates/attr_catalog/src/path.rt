ghost use Rattle.std.specs.Prelude.{◌≡◌, ◌<◌, ◌≤◌, [], ◌∷◌, ◌++◌, length};

use crate::way::Way;
use doc_values::AttrId;
use std::marker::Model;

/// At most five ways to a value, in order.
#[derive(Drop)]
pub struct Path {
    ways: [Way; 5],
    len: usize,
}

impl Model for Path {
    ghost use Rattle.std.specs.Prelude.{List, take, ◌≤◌};
    ghost use Rattle.attr_catalog.specs.declared.way.Way.{Way as WayOf};

    ghost Value = { List WayOf };

    ghost view = { λ p. take p.len p.ways };

    ghost invariant = { λ p. p.len ≤ 5 };
}

impl Path {
    pub fn new() -> Path
        ensures exact { result ≡ [] }
    {
        Path {
            ways: [Way::Extract(AttrId(0)); 5],
            len: 0,
        }
    }

    pub fn push(&mut self, way: Way)
        requires room { length self.old < 5 }
        ensures exact { self.new ≡ self.old ++ way ∷ [] }
    {
        self.ways[self.len] = way;
        self.len += 1;
    }

    pub fn ways(&self) -> &[Way]
        ensures exact { result.now ≡ self.now }
        ensures few { length self.now ≤ 5 }
    {
        &self.ways[..self.len]
    }
}
