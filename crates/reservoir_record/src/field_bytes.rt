ghost use Rattle.std.specs.Prelude.{◌≡◌, List, ℕ};

use std::marker::Model;

/// The bytes of a value.
#[derive(Drop)]
pub struct FieldBytes {
    items: Vec<u8>,
}

impl Model for FieldBytes {
    ghost Value = { List ℕ };

    ghost view = { λ b. b.items.items };
}

impl FieldBytes {
    pub fn from_vec(items: Vec<u8>) -> Self
        ensures exact { result ≡ items.items }
    {
        FieldBytes { items }
    }

    pub fn items(&self) -> &[u8]
        ensures exact { result.now ≡ self.now }
    {
        self.items.as_slice()
    }
}
