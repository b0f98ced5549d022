ghost use Rattle.std.specs.Prelude.{◌≡◌, ◌<◌, ◌∷◌, [], Some, IfOk, length, map, take, slice_get};
ghost use Rattle.std.specs.List.{range_with_len};
ghost use Rattle.row_columns.specs.Placed.{tuples_of, alone_at};

use crate::place::Place;
use crate::sides::Sides;
use crate::table_rows::TableRows;
use std::alloc::{AllocError, Global};
use std::marker::Model;

/// A list of tuples: the rows of the tables, and of each tuple the numbers of its rows.
#[derive(Drop)]
pub struct Tuples {
    tables: Vec<TableRows>,
    places: Vec<Place>,
}

impl Model for Tuples {
    ghost use Rattle.std.specs.Prelude.{List};
    ghost use Rattle.row_columns.specs.Placed.{Tuple, tuples_of};

    ghost Value = { List Tuple };

    ghost view = { λ t. tuples_of t.tables.items t.places.items };
}

impl Tuples {
    /// The tuples of places in tables.
    pub fn new(tables: Vec<TableRows>, places: Vec<Place>) -> Tuples
        ensures exact { result ≡ tuples_of tables.items places.items }
    {
        Tuples { tables, places }
    }

    /// The tuples of one table's rows, a row each.
    pub fn over(alloc: Global, table: TableRows) -> Result<Tuples, AllocError>
        ensures ok { IfOk result (λ tuples. tuples ≡ map (λ row. Some row ∷ []) table) }
    {
        let places = all_places(alloc, table.len())?;
        let tables = alone(alloc, table)?;
        Ok(Tuples { tables, places })
    }

    /// How many tuples there are.
    pub fn len(&self) -> usize
        ensures exact { result ≡ length self.now }
    {
        self.places.len()
    }

    /// A tuple, lent.
    pub fn get(&self, place: usize) -> Sides<'_>
        requires { place < length self.now }
        ensures exact { slice_get self.now place ≡ Some result }
    {
        Sides::new(&self.tables, self.places[place])
    }

    /// The first tuples, no more than so many.
    pub fn truncate(&mut self, len: usize)
        ensures exact { self.new ≡ take len self.old }
    {
        self.places.truncate(len);
    }

    /// The tables and the places.
    pub fn into_parts(self) -> (Vec<TableRows>, Vec<Place>)
        ensures exact { self ≡ tuples_of result.0.items result.1.items }
    {
        let Tuples { tables, places } = self;
        (tables, places)
    }

    /// The same, lent.
    pub fn parts(&self) -> (&[TableRows], &[Place])
        ensures exact { self.now ≡ tuples_of result.0.now result.1.now }
    {
        (&self.tables, &self.places)
    }
}

// The places of the rows of one table.
fn all_places(alloc: Global, rows: u32) -> Result<Vec<Place>, AllocError>
    ensures ok { IfOk result (λ places. places.items ≡ map alone_at (range_with_len 0 rows)) }
{
    let mut places = Vec::with_capacity(alloc, rows as usize)?;
    for row in 0..rows {
        places.push(Place {
            rows: [row, u32::MAX, u32::MAX],
        })?;
    }
    Ok(places)
}

fn alone(alloc: Global, table: TableRows) -> Result<Vec<TableRows>, AllocError>
    ensures ok { IfOk result (λ tables. tables.items ≡ table ∷ []) }
{
    let mut tables = Vec::with_capacity(alloc, 1)?;
    tables.push(table)?;
    Ok(tables)
}
