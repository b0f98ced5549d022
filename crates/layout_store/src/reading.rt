ghost use Rattle.std.specs.Prelude.{ℕ, ◌≡◌, ◌<◌, Some, All, IfSome, length, slice_get, option_map};
ghost use Rattle.attr_catalog.specs.Attribute.{Attribute};
ghost use Rattle.reservoir_record.specs.Finding.{value_of};
ghost use Rattle.doc_values.specs.Lent.{owned};
ghost use Rattle.phys_columns.specs.Cells.{cell_at};
ghost use Rattle.document_records.specs.StoredValue.{AreReadable};
ghost use Rattle.layout_store.specs.Values.{number_of};
ghost use Rattle.layout_store.specs.Along.{value_by, value_stored, first_of};

use crate::record_place::RecordPlace;
use attr_catalog::{Catalog, Way};
use doc_values::{AttrId, ValueRef};
use document_records::read_lent;
use phys_columns::Columns;

/// The first value to which one of some ways leads.
pub(crate) fn read_path<'a>(
    catalog: &Catalog,
    stored: &'a RecordPlace,
    columns: &'a Columns,
    version: u32,
    ways: &[Way],
) -> Option<ValueRef<'a>>
    requires lead { All (λ way. number_of way < length catalog.now) ways.now }
    requires readable { (id : ℕ) (a : Attribute) → slice_get catalog.now id ≡ Some a → IfSome (value_of id stored.now) (AreReadable a.kind) }
    ensures exact { option_map owned result ≡ first_of (value_by catalog.now stored.now columns.now.cells version) ways.now }
{
    for way in ways {
        if let Some(value) = read_way(catalog, stored, columns, version, *way) {
            return Some(value);
        }
    }
    None
}

// The value to which a way leads.
fn read_way<'a>(
    catalog: &Catalog,
    stored: &'a RecordPlace,
    columns: &'a Columns,
    version: u32,
    way: Way,
) -> Option<ValueRef<'a>>
    requires standing { number_of way < length catalog.now }
    requires readable { (id : ℕ) (a : Attribute) → slice_get catalog.now id ≡ Some a → IfSome (value_of id stored.now) (AreReadable a.kind) }
    ensures exact { option_map owned result ≡ value_by catalog.now stored.now columns.now.cells version way }
{
    match way {
        Way::Column(id) => read_cell(columns, version, id),
        Way::Extract(id) => read_field(catalog, stored, id),
        Way::Either(id) => match read_cell(columns, version, id) {
            Some(value) => Some(value),
            None => read_field(catalog, stored, id),
        },
    }
}

// The value of an attribute in a record.
fn read_field<'a>(catalog: &Catalog, stored: &'a RecordPlace, id: AttrId) -> Option<ValueRef<'a>>
    requires standing { id.0 < length catalog.now }
    requires readable { (i : ℕ) (a : Attribute) → slice_get catalog.now i ≡ Some a → IfSome (value_of i stored.now) (AreReadable a.kind) }
    ensures exact { option_map owned result ≡ value_stored catalog.now stored.now id.0 }
{
    match stored.find(id.0) {
        Some(bytes) => Some(read_lent(catalog.kind(id), bytes)),
        None => None,
    }
}

// The value of an attribute in a cell.
fn read_cell(columns: &Columns, version: u32, id: AttrId) -> Option<ValueRef<'_>>
    ensures exact { option_map owned result ≡ cell_at id.0 version columns.now.cells }
{
    columns.cell_ref(id, version)
}
