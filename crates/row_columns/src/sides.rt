ghost use Rattle.std.specs.Prelude.{◌≡◌, option_map, option_copied, option_and_then, slice_get};
ghost use Rattle.doc_values.specs.Lent.{owned};
ghost use Rattle.row_columns.specs.Placed.{tuple_at, cell_on};
ghost use Rattle.row_columns.specs.Sides.{side_at};

use crate::place::Place;
use crate::table_rows::TableRows;
use doc_values::{Doc, ValueRef};
use std::marker::Model;

/// A tuple, lent: a row for each table; none on a side that is missing.
#[derive(Drop)]
pub struct Sides<'a> {
    tables: &'a [TableRows],
    place: Place,
}

impl<'a> Model for Sides<'a> {
    ghost use Rattle.row_columns.specs.Placed.{Tuple, tuple_at};

    ghost Value = { Tuple };

    ghost view = { λ s. tuple_at s.tables.now s.place };
}

impl<'a> Sides<'a> {
    /// The tuple of the rows with these numbers.
    pub fn new(tables: &'a [TableRows], place: Place) -> Sides<'a>
        ensures exact { result ≡ tuple_at tables.now place }
    {
        Sides { tables, place }
    }

    /// The value of a column on a table's side; none where it is NULL, where the side is missing, and where there is no
    /// such side or column.
    pub fn cell(&self, table: u32, column: u32) -> Option<ValueRef<'a>>
        ensures exact { option_map owned result ≡ cell_on self.now table column }
    {
        let tables = self.tables;
        let Some(row) = row_in(self.place, table) else {
            return None;
        };
        let Some(rows) = rows_in(tables, table) else {
            return None;
        };
        rows.cell(row, column)
    }

    /// The document of the first table's row, where whole documents are asked for.
    pub fn doc(&self) -> Option<&'a Doc>
        ensures exact { option_copied result ≡ option_and_then (λ row. row.doc) (side_at self.now 0) }
    {
        let tables = self.tables;
        tables.first()?.doc(self.place.rows[0])
    }
}

fn row_in(place: Place, table: u32) -> Option<u32>
    ensures exact { result ≡ slice_get place.rows table }
{
    place.rows.get(table as usize).copied()
}

fn rows_in(tables: &[TableRows], table: u32) -> Option<&TableRows>
    ensures exact { option_copied result ≡ slice_get tables.now table }
{
    tables.get(table as usize)
}
