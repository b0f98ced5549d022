ghost use Rattle.std.specs.Prelude.{◌≡◌, ◌<◌, length, option_map, option_copied, option_and_then, slice_get};
ghost use Rattle.doc_values.specs.Lent.{owned};
ghost use Rattle.row_columns.specs.Placed.{rows_of, value_in, cell_of};

use crate::cell_column::CellColumn;
use doc_values::{Doc, ValueRef};
use std::alloc::Global;
use std::marker::Model;

/// The rows of a table, by their columns; with the documents where whole ones are asked for.
#[derive(Drop)]
pub struct TableRows {
    rows: u32,
    columns: Vec<CellColumn>,
    docs: Vec<Doc>,
}

impl Model for TableRows {
    ghost use Rattle.std.specs.Prelude.{List};
    ghost use Rattle.row_columns.specs.Contents.{Cells};
    ghost use Rattle.row_columns.specs.Placed.{rows_of};

    ghost Value = { List Cells };

    ghost view = { λ t. rows_of t.rows t.columns.items t.docs.items };
}

impl TableRows {
    /// So many rows. A column that is too short is NULL behind its end.
    pub fn new(rows: u32, columns: Vec<CellColumn>, docs: Vec<Doc>) -> TableRows
        ensures exact { result ≡ rows_of rows columns.items docs.items }
    {
        TableRows {
            rows,
            columns,
            docs,
        }
    }

    /// How many rows there are.
    pub fn len(&self) -> u32
        ensures exact { result ≡ length self.now }
    {
        self.rows
    }

    /// The value of a column in a row; none where it is NULL, and where there is no such row or column.
    pub fn cell(&self, row: u32, column: u32) -> Option<ValueRef<'_>>
        ensures exact { option_map owned result ≡ cell_of self.now row column }
    {
        if row < self.rows {
            cell_in(&self.columns, row, column)
        } else {
            None
        }
    }

    /// The document of a row, where whole documents are asked for.
    pub fn doc(&self, row: u32) -> Option<&Doc>
        ensures exact { option_copied result ≡ option_and_then (λ r. r.doc) (slice_get self.now row) }
    {
        if row < self.rows {
            doc_in(&self.docs, row)
        } else {
            None
        }
    }

    /// Where the rows have their memory from.
    pub fn allocator(&self) -> Global {
        *self.columns.allocator()
    }
}

fn cell_in(columns: &[CellColumn], row: u32, column: u32) -> Option<ValueRef<'_>>
    ensures exact { option_map owned result ≡ option_and_then (value_in row) (slice_get columns.now column) }
{
    columns.get(column as usize)?.cell(row as usize)
}

fn doc_in(docs: &[Doc], row: u32) -> Option<&Doc>
    ensures exact { option_copied result ≡ slice_get docs.now row }
{
    docs.get(row as usize)
}
