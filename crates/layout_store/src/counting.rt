ghost use Rattle.std.specs.Prelude.{ℕ, List, ◌≡◌, ◌<◌, true, Some, None, IfSome, length, is_some, slice_get, if◌then◌else◌};
ghost use Rattle.reservoir_record.specs.Finding.{value_of};
ghost use Rattle.attr_catalog.specs.Attribute.{Attribute, lowered, raised};
ghost use Rattle.attr_catalog.specs.Catalog.{changed, most_versions};
ghost use Rattle.phys_columns.specs.Cells.{cell_at};
ghost use Rattle.layout_store.specs.Storage.{either_side};
ghost use Rattle.layout_store.specs.Listed.{AreListedAt};
ghost use Rattle.doc_values.specs.declared.value.Value.{Value as ValueOf};
ghost use Rattle.layout_store.specs.Changes.{AreChanged, lowered_if, written_to, written_if};
ghost use Rattle.layout_store.specs.RolledBack.{raised_if};

use crate::cell_ids::CellIds;
use crate::record_place::RecordPlace;
use attr_catalog::{Catalog, Home};
use doc_values::AttrId;
use phys_columns::Columns;

/// Counts one document fewer for each attribute that a version holds.
pub(crate) fn lower_all(
    catalog: &mut Catalog,
    stored: &RecordPlace,
    columns: &Columns,
    ids: &CellIds,
    version: u32,
)
    requires known { (id : ℕ) (bytes : List ℕ) → value_of id stored.now ≡ Some bytes → id < length catalog.old }
    requires apart { (id : ℕ) (bytes : List ℕ) → value_of id stored.now ≡ Some bytes → cell_at id version columns.now.cells ≡ None }
    requires counted { (id : ℕ) (a : Attribute) → slice_get catalog.old id ≡ Some a → is_some (either_side (value_of id stored.now) (cell_at id version columns.now.cells)) ≡ true → 0 < a.count }
    requires listed { AreListedAt version ids.now columns.now.cells }
    requires celled { (id : ℕ) (value : ValueOf) → cell_at id version columns.now.cells ≡ Some value → id < length catalog.old }
    ensures exact { AreChanged (λ id. lowered_if (is_some (either_side (value_of id stored.now) (cell_at id version columns.now.cells)))) catalog.old catalog.new }
{
    lower_fields(catalog, stored);
    lower_cells(catalog, columns, ids, version);
}

// Counts one document fewer for each attribute of a record.
fn lower_fields(catalog: &mut Catalog, stored: &RecordPlace)
    requires known { (id : ℕ) (bytes : List ℕ) → value_of id stored.now ≡ Some bytes → id < length catalog.old }
    requires counted { (id : ℕ) (a : Attribute) → slice_get catalog.old id ≡ Some a → is_some (value_of id stored.now) ≡ true → 0 < a.count }
    ensures exact { AreChanged (λ id. lowered_if (is_some (value_of id stored.now))) catalog.old catalog.new }
{
    for place in 0..stored.len() {
        catalog.lower(AttrId(stored.id(place)));
    }
}

// Counts one document fewer for each attribute that has a cell.
fn lower_cells(catalog: &mut Catalog, columns: &Columns, ids: &CellIds, version: u32)
    requires listed { AreListedAt version ids.now columns.now.cells }
    requires celled { (id : ℕ) (value : ValueOf) → cell_at id version columns.now.cells ≡ Some value → id < length catalog.old }
    requires counted { (id : ℕ) (a : Attribute) → slice_get catalog.old id ≡ Some a → is_some (cell_at id version columns.now.cells) ≡ true → 0 < a.count }
    ensures exact { AreChanged (λ id. lowered_if (is_some (cell_at id version columns.now.cells))) catalog.old catalog.new }
{
    for place in 0..ids.len() {
        lower_cell(catalog, columns, version, AttrId(ids.id(place)));
    }
}

// Counts one document fewer for an attribute, if it has a cell.
fn lower_cell(catalog: &mut Catalog, columns: &Columns, version: u32, id: AttrId)
    requires standing { is_some (cell_at id.0 version columns.now.cells) ≡ true → id.0 < length catalog.old }
    requires counted { is_some (cell_at id.0 version columns.now.cells) ≡ true → IfSome (slice_get catalog.old id.0) (λ a. 0 < a.count) }
    ensures exact { catalog.new ≡ (if is_some (cell_at id.0 version columns.now.cells) then changed lowered id catalog.old else catalog.old) }
{
    if columns.has(id, version) {
        catalog.lower(id);
    }
}

/// Counts one document more for each attribute that a version holds.
pub(crate) fn raise_all(
    catalog: &mut Catalog,
    stored: &RecordPlace,
    columns: &Columns,
    ids: &CellIds,
    version: u32,
)
    requires known { (id : ℕ) (bytes : List ℕ) → value_of id stored.now ≡ Some bytes → id < length catalog.old }
    requires apart { (id : ℕ) (bytes : List ℕ) → value_of id stored.now ≡ Some bytes → cell_at id version columns.now.cells ≡ None }
    requires room { (id : ℕ) (a : Attribute) → slice_get catalog.old id ≡ Some a → is_some (either_side (value_of id stored.now) (cell_at id version columns.now.cells)) ≡ true → a.count < most_versions }
    requires listed { AreListedAt version ids.now columns.now.cells }
    requires celled { (id : ℕ) (value : ValueOf) → cell_at id version columns.now.cells ≡ Some value → id < length catalog.old }
    ensures exact { AreChanged (λ id. raised_if (is_some (either_side (value_of id stored.now) (cell_at id version columns.now.cells)))) catalog.old catalog.new }
{
    raise_fields(catalog, stored);
    raise_cells(catalog, columns, ids, version);
}

// Counts one document more for each attribute of a record.
fn raise_fields(catalog: &mut Catalog, stored: &RecordPlace)
    requires known { (id : ℕ) (bytes : List ℕ) → value_of id stored.now ≡ Some bytes → id < length catalog.old }
    requires room { (id : ℕ) (a : Attribute) → slice_get catalog.old id ≡ Some a → is_some (value_of id stored.now) ≡ true → a.count < most_versions }
    ensures exact { AreChanged (λ id. raised_if (is_some (value_of id stored.now))) catalog.old catalog.new }
{
    for place in 0..stored.len() {
        catalog.raise(AttrId(stored.id(place)));
    }
}

// Counts one document more for each attribute that has a cell.
fn raise_cells(catalog: &mut Catalog, columns: &Columns, ids: &CellIds, version: u32)
    requires listed { AreListedAt version ids.now columns.now.cells }
    requires celled { (id : ℕ) (value : ValueOf) → cell_at id version columns.now.cells ≡ Some value → id < length catalog.old }
    requires room { (id : ℕ) (a : Attribute) → slice_get catalog.old id ≡ Some a → is_some (cell_at id version columns.now.cells) ≡ true → a.count < most_versions }
    ensures exact { AreChanged (λ id. raised_if (is_some (cell_at id version columns.now.cells))) catalog.old catalog.new }
{
    for place in 0..ids.len() {
        raise_cell(catalog, columns, version, AttrId(ids.id(place)));
    }
}

// Counts one document more for an attribute, if it has a cell.
fn raise_cell(catalog: &mut Catalog, columns: &Columns, version: u32, id: AttrId)
    requires standing { is_some (cell_at id.0 version columns.now.cells) ≡ true → id.0 < length catalog.old }
    requires room { is_some (cell_at id.0 version columns.now.cells) ≡ true → IfSome (slice_get catalog.old id.0) (λ a. a.count < most_versions) }
    ensures exact { catalog.new ≡ (if is_some (cell_at id.0 version columns.now.cells) then changed raised id catalog.old else catalog.old) }
{
    if columns.has(id, version) {
        catalog.raise(id);
    }
}

/// Counts one document more for each attribute of a new version's record, and marks columns dirty from it on.
pub(crate) fn write_all(catalog: &mut Catalog, stored: &RecordPlace, version: u32)
    requires known { (id : ℕ) (bytes : List ℕ) → value_of id stored.now ≡ Some bytes → id < length catalog.old }
    requires room { (id : ℕ) (a : Attribute) → slice_get catalog.old id ≡ Some a → a.count < most_versions }
    ensures exact { AreChanged (λ id. written_if version (is_some (value_of id stored.now))) catalog.old catalog.new }
{
    for place in 0..stored.len() {
        write_one(catalog, AttrId(stored.id(place)), version);
    }
}

// Counts one document more for an attribute, and marks a column dirty.
fn write_one(catalog: &mut Catalog, id: AttrId, version: u32)
    requires standing { id.0 < length catalog.old }
    requires room { IfSome (slice_get catalog.old id.0) (λ a. a.count < most_versions) }
    ensures exact { catalog.new ≡ changed (λ a. written_to a.home version a) id catalog.old }
{
    let home = catalog.home(id);
    catalog.raise(id);
    match home {
        Home::Reservoir => {}
        Home::Column => catalog.mark_dirty(id, version),
    }
}
