ghost use Rattle.std.specs.Prelude.{◌≡◌, ◌++◌, ◌∷◌, [], OnOk, OnErr, option_map};
ghost use Rattle.doc_values.specs.Lent.{owned};

use crate::cell::Cell;
use crate::filling::cell_for;
use crate::lending::lent;
use doc_values::ValueRef;
use std::alloc::{AllocError, Global};
use std::marker::Model;

/// The values of a column: a small cell for each, and one text that holds all texts.
#[derive(Drop)]
pub struct CellColumn {
    cells: Vec<Cell>,
    texts: String,
    wides: Vec<i128>,
}

impl Model for CellColumn {
    ghost use Rattle.std.specs.Prelude.{map, All, string_bytes};
    ghost use Rattle.row_columns.specs.Column.{Values, cell_in, IsCellIn};

    ghost Value = { Values };

    ghost view = { λ c. map (cell_in (string_bytes c.texts) c.wides.items) c.cells.items };

    ghost invariant = { λ c. All (IsCellIn (string_bytes c.texts) c.wides.items) c.cells.items };
}

impl CellColumn {
    ghost use Rattle.row_columns.specs.Placed.{value_in};

    /// A column without values.
    pub fn new(alloc: Global) -> CellColumn
        ensures exact { result ≡ [] }
    {
        CellColumn {
            cells: Vec::new(alloc),
            texts: String::new(alloc),
            wides: Vec::new(alloc),
        }
    }

    /// Makes room for so many values more.
    pub fn reserve(&mut self, values: usize) -> Result<(), AllocError>
        ensures kept { self.new ≡ self.old }
    {
        self.cells.reserve(values)?;
        Ok(())
    }

    /// Puts a value behind the others, with a copy of its text; none is NULL. A column holds less than 4 GB of texts:
    /// more is want of memory.
    pub fn push(&mut self, value: Option<ValueRef<'_>>) -> Result<(), AllocError>
        ensures ok { OnOk result (self.new ≡ self.old ++ option_map owned value.entry ∷ []) }
        ensures memory { OnErr result (self.new ≡ self.old) }
    {
        let cell = cell_for(&mut self.texts, &mut self.wides, value)?;
        self.cells.push(cell)?;
        Ok(())
    }

    /// The value in a row, lent; none where it is NULL, and past the last row.
    pub fn cell(&self, row: usize) -> Option<ValueRef<'_>>
        ensures exact { option_map owned result ≡ value_in row self.now }
    {
        lent(self.texts.as_str(), &self.wides, *self.cells.get(row)?)
    }
}
