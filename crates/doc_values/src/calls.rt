ghost use Rattle.std.specs.Prelude.{◌≡◌, List, ℕ};

use std::marker::Model;

/// A list of numbers of calls.
#[derive(Drop)]
pub struct Calls {
    items: Vec<u64>,
}

impl Model for Calls {
    ghost Value = { List ℕ };

    ghost view = { λ l. l.items.items };
}

impl Calls {
    pub fn from_vec(items: Vec<u64>) -> Self
        ensures exact { result ≡ items.items }
    {
        Calls { items }
    }

    pub fn items(&self) -> &[u64]
        ensures exact { result.now ≡ self.now }
    {
        self.items.as_slice()
    }
}
