ghost use Rattle.std.specs.Prelude.{◌≡◌, List, ℕ};

use std::marker::Model;

/// A list of bytes.
#[derive(Drop)]
pub struct Bytes {
    items: Vec<u8>,
}

impl Model for Bytes {
    ghost Value = { List ℕ };

    ghost view = { λ b. b.items.items };
}

impl Bytes {
    pub fn from_vec(items: Vec<u8>) -> Self
        ensures exact { result ≡ items.items }
    {
        Bytes { items }
    }

    pub fn items(&self) -> &[u8]
        ensures exact { result.now ≡ self.now }
    {
        self.items.as_slice()
    }
}
