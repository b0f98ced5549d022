ghost use Rattle.std.specs.Prelude.{◌≡◌, ◌≤◌, ◌<◌, ◌+◌, ◌++◌, ◌∷◌, [], List, Some, Err, All, length, slice_get, IfOk, OnOk};
ghost use Rattle.doc_values.specs.Value.{kind_of, IsStorable};
ghost use Rattle.reservoir_record.specs.declared.fields.Field.{Field};
ghost use Rattle.document_records.specs.StoredValue.{bytes_of, AreReadable};
ghost use Rattle.doc_values.specs.Weight.{weight_of};
ghost use Rattle.reservoir_record.specs.Spelling.{values};
ghost use Rattle.attr_catalog.specs.Catalog.{most_attributes};
ghost use Rattle.document_records.specs.Limits.{most_weight};
ghost use Rattle.document_records.specs.Parts.{AreIn};
ghost use Rattle.document_records.specs.StoredDocument.{pairs_of};
ghost use Rattle.layout_store.specs.Numbering.{pairs_with, with_fields, HasGrown, HaveEntries, fields_made, IsRecordOf};

use crate::grow_fault::GrowFault;
use attr_catalog::{AddFault, Catalog};
use doc_values::{Doc, Kind, Value, ValueRef, documents_are_maps};
use document_records::{Parts, Record, kind_stored, records_keep_documents};
use std::alloc::{AllocError, Global};

/// The record of a document, whose new pairs are appended to the catalog.
pub(crate) fn record_of(
    alloc: Global,
    catalog: &mut Catalog,
    document: &Doc,
    entries: &mut Vec<(u32, usize)>,
    parts: &mut Parts,
) -> Result<Record, GrowFault>
    requires light { weight_of document.now ≤ most_weight }
    ensures grown { HasGrown catalog.old catalog.new }
    ensures pairs { OnOk result (pairs_of catalog.new ≡ with_fields (pairs_of catalog.old) document.now) }
    ensures within { OnOk result (length (with_fields (pairs_of catalog.old) document.now) ≤ most_attributes) }
    ensures ok { IfOk result (λ fields. IsRecordOf (pairs_of catalog.new) document.now fields) }
    ensures full { result ≡ Err GrowFault.Full → most_attributes < length (with_fields (pairs_of catalog.old) document.now) }
{
    records_keep_documents();
    let _kept = document.len();
    number_fields(catalog, document, entries)?;
    catalog.keeps_the_rules();
    entries.sort_unstable();
    fill(parts, document, entries)?;
    Ok(parts.record(alloc)?)
}

// Numbers the fields of a document.
fn number_fields(
    catalog: &mut Catalog,
    document: &Doc,
    entries: &mut Vec<(u32, usize)>,
) -> Result<(), GrowFault>
    ensures grown { HasGrown catalog.old catalog.new }
    ensures ok { OnOk result (HaveEntries (pairs_of catalog.new) 0 document.now entries.new.items) }
    ensures pairs { OnOk result (pairs_of catalog.new ≡ with_fields (pairs_of catalog.old) document.now) }
    ensures full { result ≡ Err GrowFault.Full → most_attributes < length (with_fields (pairs_of catalog.old) document.now) }
{
    entries.clear();
    for place in 0..document.len() {
        let (name, value) = document.field(place);
        let id = number_pair(catalog, name, kind_kept(value))?;
        entries.push((id, place))?;
    }
    Ok(())
}

/// The number of a pair, which is appended where it is new.
pub(crate) fn number_pair(catalog: &mut Catalog, name: &str, kind: Kind) -> Result<u32, GrowFault>
    ensures grown { HasGrown catalog.old catalog.new }
    ensures number { IfOk result (λ id. slice_get (pairs_of catalog.new) id ≡ Some (name.now, kind)) }
    ensures pairs { OnOk result (pairs_of catalog.new ≡ pairs_with (pairs_of catalog.old) (name.now, kind)) }
    ensures full { result ≡ Err GrowFault.Full → most_attributes < length (pairs_with (pairs_of catalog.old) (name.now, kind)) }
{
    match catalog.add(name, kind) {
        Ok(id) => Ok(id.0),
        Err(AddFault::Full) => Err(GrowFault::Full),
        Err(AddFault::Memory) => Err(GrowFault::Memory),
    }
}

// The kind of a value, whose bytes can be read by it.
fn kind_kept(value: &Value) -> Kind
    ensures exact { result ≡ kind_of value.now }
    ensures readable { AreReadable result (bytes_of value.now) }
{
    kind_stored(ValueRef::of(value))
}

// Puts a value behind other fields.
fn push_value(parts: &mut Parts, id: u32, value: &Value) -> Result<(), AllocError>
    requires storable { IsStorable value.now }
    requires room { length parts.old.values.items + length (bytes_of value.now) ≤ most_weight }
    ensures ok { OnOk result ((fields : List Field) → AreIn fields parts.old → AreIn (fields ++ record { id = id; bytes = bytes_of value.now } ∷ []) parts.new) }
{
    parts.push(id, ValueRef::of(value))
}

// Puts the fields of a document's entries in place of those that were there.
fn fill(parts: &mut Parts, document: &Doc, entries: &[(u32, usize)]) -> Result<(), AllocError>
    requires within { All (λ entry. entry.1 < length document.now) entries.now }
    requires fit { length (values (fields_made document.now entries.now)) ≤ most_weight }
    ensures ok { OnOk result (AreIn (fields_made document.now entries.now) parts.new) }
{
    documents_are_maps();
    let _kept = document.len();
    parts.clear();
    for entry in entries {
        let (_, value) = document.field(entry.1);
        push_value(parts, entry.0, value)?;
    }
    Ok(())
}
