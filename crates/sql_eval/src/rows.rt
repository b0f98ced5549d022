ghost use Rattle.std.specs.Prelude.{◌≡◌};

use crate::out_row::OutRow;
use std::marker::Model;

/// The rows of an answer.
#[derive(Drop)]
pub struct Rows {
    items: Vec<OutRow>,
}

impl Model for Rows {
    ghost use Rattle.std.specs.Prelude.{List};
    ghost use Rattle.row_columns.specs.Contents.{Output};

    ghost Value = { List Output };

    ghost view = { λ l. l.items.items };
}

impl Rows {
    pub fn from_vec(items: Vec<OutRow>) -> Rows
        ensures exact { result ≡ items.items }
    {
        Rows { items }
    }

    pub fn items(&self) -> &[OutRow]
        ensures exact { result.now ≡ self.now }
    {
        self.items.as_slice()
    }

    /// The rows, none of them copied.
    pub fn into_vec(self) -> Vec<OutRow>
        ensures exact { result.items ≡ self }
    {
        let Rows { items } = self;
        items
    }
}
