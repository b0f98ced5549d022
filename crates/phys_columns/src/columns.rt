ghost use Rattle.std.specs.Prelude.{◌≡◌, ◌≢◌, ◌<◌, ◌≤◌, ◌+◌, ◌*◌, ◌/◌, ℕ, Some, None, IfSome, IfOk, OnOk, OnErr, true, false, is_some, length, option_map};
ghost use Rattle.std.specs.FinMap as map;
ghost use Rattle.doc_values.specs.Value.{kind_of, IsStorable};
ghost use Rattle.doc_values.specs.Lent.{owned};
ghost use Rattle.phys_columns.specs.Inside.{pages_of, IsRoom};

use crate::column::Column;
use crate::compare_int::CompareInt;
use crate::mask::Mask;
use crate::spare::Spare;
use crate::walk::Walk;
use doc_values::{AttrId, Kind, Value, ValueRef};
use std::alloc::{AllocError, Global};
use std::marker::Model;

/// The values of all cells, by attribute and version.
#[derive(Drop)]
pub struct Columns {
    columns: Vec<Column>,
    spare: Option<Spare>,
}

impl Model for Columns {
    ghost use Rattle.std.specs.Coded.{codes};
    ghost use Rattle.std.specs.FinMap as map;
    ghost use Rattle.doc_values.specs.contracts.value.Value as of_value;
    ghost use Rattle.phys_columns.specs.Cells.{ColumnsOf};
    ghost use Rattle.phys_columns.specs.Inside.{cells_in, AreColumns};

    ghost Value = { ColumnsOf };

    ghost coded = { Prim.hlevel (codes, map.code, of_value.the_row.coded) };

    ghost view = { λ c. record { cells = cells_in c.columns.items; spare = c.spare } };

    ghost invariant = { λ c. AreColumns c.columns.items c.spare };
}

impl Columns {
    ghost use Rattle.phys_columns.specs.Cells.{cell_at, with_cell, without_cell, values_from, AreOfKind};
    ghost use Rattle.phys_columns.specs.Filtered.{is_bit, is_met};
    ghost use Rattle.phys_columns.specs.Walked.{left_of};

    /// Columns without a value.
    pub fn new(alloc: Global) -> Columns
        ensures exact { result ≡ record { cells = map.empty; spare = None } }
    {
        Columns {
            columns: Vec::new(alloc),
            spare: None,
        }
    }

    /// The cell that has room reserved.
    pub fn spare(&self) -> Option<Spare>
        ensures exact { result ≡ self.now.spare }
    {
        self.spare
    }

    /// Whether a value stands in a cell.
    pub fn has(&self, id: AttrId, version: u32) -> bool
        ensures exact { result ≡ is_some (cell_at id.0 version self.now.cells) }
    {
        match self.columns.get(id.0 as usize) {
            Some(column) => column.has(version),
            None => false,
        }
    }

    /// The value that stands in a cell, lent.
    pub fn cell_ref(&self, id: AttrId, version: u32) -> Option<ValueRef<'_>>
        ensures exact { option_map owned result ≡ cell_at id.0 version self.now.cells }
    {
        match self.columns.get(id.0 as usize) {
            Some(column) => column.lend(version),
            None => None,
        }
    }

    /// A copy of the value that stands in a cell.
    pub fn cell(&self, id: AttrId, version: u32) -> Result<Option<Value>, AllocError>
        ensures ok { IfOk result (λ value. value ≡ cell_at id.0 version self.now.cells) }
    {
        let alloc = *self.columns.allocator();
        match self.cell_ref(id, version) {
            Some(value) => Ok(Some(value.to_value(alloc)?)),
            None => Ok(None),
        }
    }

    /// The values of an attribute in a page of 1,024 versions, in the order of their versions, each with its version.
    pub fn walk(&self, id: AttrId, page: u32) -> Walk<'_>
        ensures exact { left_of result ≡ values_from id.0 (1024 * page) 1024 self.now.cells }
    {
        match self.columns.get(id.0 as usize) {
            Some(column) => Walk::new(column.page(page)),
            None => Walk::new(None),
        }
    }

    /// A bit for each version of a page of an attribute: whether a number stands in the cell and meets the comparison.
    pub fn filter_page(&self, id: AttrId, page: u32, test: CompareInt) -> Mask
        ensures exact { (w j : ℕ) → w < 16 → j < 64 → is_bit result.words w j ≡ is_met test (cell_at id.0 (1024 * page + (64 * w + j)) self.now.cells) }
    {
        match self.columns.get(id.0 as usize) {
            Some(column) => column.filter(page, test),
            None => Mask { words: [0; 16] },
        }
    }

    /// Reserves room for a value of a kind in a cell, in place of the room reserved before.
    pub fn reserve_cell(&mut self, id: AttrId, kind: Kind, version: u32) -> Result<(), AllocError>
        requires alike { AreOfKind id.0 kind self.old.cells }
        ensures ok { OnOk result (self.new ≡ record { cells = self.old.cells; spare = Some (record { id = id; version = version; kind = kind }) }) }
        ensures memory { OnErr result (self.new.cells ≡ self.old.cells) }
    {
        self.release();
        let alloc = *self.columns.allocator();
        grow(&mut self.columns, id.0 as usize + 1)?;
        self.columns[id.0 as usize].make_room(alloc, version, kind)?;
        self.spare = Some(Spare { id, version, kind });
        Ok(())
    }

    // Gives back the room that is reserved. A page that holds no value then is let go.
    fn release(&mut self)
        ensures exact { self.new ≡ record { cells = self.old.cells; spare = None } }
    {
        if let Some(spare) = self.spare {
            self.spare = None;
            self.columns[spare.id.0 as usize].let_go(spare.version);
        }
    }

    /// Puts a value in the cell that has room reserved.
    pub fn put_cell(&mut self, id: AttrId, version: u32, value: Value)
        requires spare { self.old.spare ≡ Some (record { id = id; version = version; kind = kind_of value }) }
        requires storable { IsStorable value }
        ensures exact { self.new ≡ record { cells = with_cell id.0 version value self.old.cells; spare = None } }
    {
        self.spare = None;
        self.columns[id.0 as usize].put(version, value);
    }

    /// Takes the value out of a cell. A page that holds no value then is let go, unless room is reserved there.
    pub fn clear_cell(&mut self, id: AttrId, version: u32) -> Option<Value>
        ensures exact { self.new ≡ record { cells = without_cell id.0 version self.old.cells; spare = self.old.spare } }
        ensures taken { result ≡ cell_at id.0 version self.old.cells }
    {
        let alloc = *self.columns.allocator();
        let keep = has_room_at(self.spare, id, version);
        if id.0 as usize >= self.columns.len() {
            return None;
        }
        self.columns[id.0 as usize].clear(alloc, version, keep)
    }
}

// Whether the room is reserved in the page of a cell.
fn has_room_at(spare: Option<Spare>, id: AttrId, version: u32) -> bool
    ensures yes { result ≡ true → IsRoom id.0 (version / 1024) spare }
    ensures no { result ≡ false → IfSome spare (λ s. s.id.0 ≡ id.0 → s.version / 1024 ≢ version / 1024) }
{
    match spare {
        Some(spare) => spare.id == id && spare.version / 1024 == version / 1024,
        None => false,
    }
}

// Makes columns without pages up to a length.
fn grow(columns: &mut Vec<Column>, len: usize) -> Result<(), AllocError>
    ensures kept { (id : ℕ) → pages_of id columns.new.items ≡ pages_of id columns.old.items }
    ensures ok { OnOk result (len ≤ length columns.new.items) }
{
    let alloc = *columns.allocator();
    for _ in columns.len()..len {
        columns.push(Column::new(alloc))?;
    }
    Ok(())
}
