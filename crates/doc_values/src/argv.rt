ghost use Rattle.std.specs.Prelude.{◌≡◌, List, ℕ};

use crate::utf::Utf;
use std::marker::Model;

/// A list of texts.
#[derive(Drop)]
pub struct Argv {
    items: Vec<Utf>,
}

impl Model for Argv {
    ghost Value = { List (List ℕ) };

    ghost view = { λ l. l.items.items };
}

impl Argv {
    pub fn from_vec(items: Vec<Utf>) -> Self
        ensures exact { result ≡ items.items }
    {
        Argv { items }
    }

    pub fn items(&self) -> &[Utf]
        ensures exact { result.now ≡ self.now }
    {
        self.items.as_slice()
    }
}
