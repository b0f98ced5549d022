ghost use Rattle.std.specs.Prelude.{ℕ, List, ◌≡◌, ◌<◌, ◌++◌, [], Some, IfSome, IfOk, OnOk, length, slice_get, option_map};
ghost use Rattle.doc_values.specs.Doc.{with_field};
ghost use Rattle.doc_values.specs.Value.{IsStorable};
ghost use Rattle.doc_values.specs.declared.value.Value.{Value as ValueOf};
ghost use Rattle.reservoir_record.specs.Finding.{value_of};
ghost use Rattle.reservoir_record.specs.Spelling.{AreFields};
ghost use Rattle.attr_catalog.specs.Attribute.{Attribute};
ghost use Rattle.phys_columns.specs.Cells.{cell_at};
ghost use Rattle.document_records.specs.StoredValue.{AreReadable, bytes_of};
ghost use Rattle.document_records.specs.StoredDocument.{pairs_of, document_with, with_stored};
ghost use Rattle.layout_store.specs.Documents.{field_if};
ghost use Rattle.layout_store.specs.Listed.{fields_listed};
ghost use Rattle.layout_store.specs.Placed.{IsCelled};

use crate::cell_ids::CellIds;
use crate::record_place::RecordPlace;
use attr_catalog::Catalog;
use doc_values::{AttrId, Doc, Utf, Value};
use document_records::{read_value, stored_values_are_told_apart};
use phys_columns::Columns;
use std::alloc::{AllocError, Global};

/// The document of what a version holds: the fields of its record are put in, and then the values of its cells.
pub(crate) fn whole(
    alloc: Global,
    catalog: &Catalog,
    stored: &RecordPlace,
    columns: &Columns,
    ids: &CellIds,
    version: u32,
) -> Result<Doc, AllocError>
    requires known { (id : ℕ) (bytes : List ℕ) → value_of id stored.now ≡ Some bytes → id < length catalog.now }
    requires readable { (id : ℕ) (a : Attribute) → slice_get catalog.now id ≡ Some a → IfSome (value_of id stored.now) (AreReadable a.kind) }
    requires celled { (id : ℕ) (value : ValueOf) → cell_at id version columns.now.cells ≡ Some value → IsCelled catalog.now id value }
    ensures ok { IfOk result (λ document. document ≡ document_with (pairs_of catalog.now) [] (stored.now ++ fields_listed ids.now (λ id. option_map bytes_of (cell_at id version columns.now.cells)) (length ids.now))) }
{
    let mut document = Doc::new(alloc);
    put_fields(alloc, catalog, stored, &mut document)?;
    put_cells(alloc, catalog, columns, ids, version, &mut document)?;
    Ok(document)
}

// Puts the fields of a record into the document.
fn put_fields(
    alloc: Global,
    catalog: &Catalog,
    stored: &RecordPlace,
    document: &mut Doc,
) -> Result<(), AllocError>
    requires known { (id : ℕ) (bytes : List ℕ) → value_of id stored.now ≡ Some bytes → id < length catalog.now }
    requires readable { (id : ℕ) (a : Attribute) → slice_get catalog.now id ≡ Some a → IfSome (value_of id stored.now) (AreReadable a.kind) }
    ensures ok { OnOk result (document.new ≡ document_with (pairs_of catalog.now) document.old stored.now) }
{
    for place in 0..stored.len() {
        put_field(alloc, catalog, stored, place, document)?;
    }
    Ok(())
}

// Puts the field at a place of a record into the document.
fn put_field(
    alloc: Global,
    catalog: &Catalog,
    stored: &RecordPlace,
    place: u32,
    document: &mut Doc,
) -> Result<(), AllocError>
    requires within { place < length stored.now }
    requires lawful { AreFields stored.now }
    requires known { (id : ℕ) (bytes : List ℕ) → value_of id stored.now ≡ Some bytes → id < length catalog.now }
    requires readable { (id : ℕ) (a : Attribute) → slice_get catalog.now id ≡ Some a → IfSome (value_of id stored.now) (AreReadable a.kind) }
    ensures ok { OnOk result (IfSome (slice_get stored.now place) (λ field. document.new ≡ with_stored (pairs_of catalog.now) field document.old)) }
{
    stored_values_are_told_apart();
    let id = AttrId(stored.id(place));
    let value = read_value(alloc, catalog.kind(id), stored.bytes(place))?;
    put_value(alloc, catalog, id, value, document)?;
    Ok(())
}

// Puts the values of a version's cells into the document.
fn put_cells(
    alloc: Global,
    catalog: &Catalog,
    columns: &Columns,
    ids: &CellIds,
    version: u32,
    document: &mut Doc,
) -> Result<(), AllocError>
    requires celled { (id : ℕ) (value : ValueOf) → cell_at id version columns.now.cells ≡ Some value → IsCelled catalog.now id value }
    ensures ok { OnOk result (document.new ≡ document_with (pairs_of catalog.now) document.old (fields_listed ids.now (λ id. option_map bytes_of (cell_at id version columns.now.cells)) (length ids.now))) }
{
    for place in 0..ids.len() {
        put_cell(
            alloc,
            catalog,
            columns,
            version,
            AttrId(ids.id(place)),
            document,
        )?;
    }
    Ok(())
}

// Puts the value of a cell into the document, if there is one.
fn put_cell(
    alloc: Global,
    catalog: &Catalog,
    columns: &Columns,
    version: u32,
    id: AttrId,
    document: &mut Doc,
) -> Result<(), AllocError>
    requires celled { (i : ℕ) (value : ValueOf) → cell_at i version columns.now.cells ≡ Some value → IsCelled catalog.now i value }
    ensures ok { OnOk result (document.new ≡ document_with (pairs_of catalog.now) document.old (field_if id.0 (option_map bytes_of (cell_at id.0 version columns.now.cells)))) }
{
    stored_values_are_told_apart();
    if let Some(value) = columns.cell(id, version)? {
        put_value(alloc, catalog, id, value, document)?;
    }
    Ok(())
}

// Puts a value into the document under the name of an attribute.
fn put_value(
    alloc: Global,
    catalog: &Catalog,
    id: AttrId,
    value: Value,
    document: &mut Doc,
) -> Result<(), AllocError>
    requires standing { id.0 < length catalog.now }
    requires storable { IsStorable value }
    ensures ok { OnOk result (IfSome (slice_get catalog.now id.0) (λ a. document.new ≡ with_field document.old a.name value)) }
{
    let name = Utf::of(alloc, catalog.name(id))?;
    document.set(name, value)?;
    Ok(())
}
