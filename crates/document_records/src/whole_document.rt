ghost use Rattle.std.specs.Prelude.{◌≡◌, ◌<◌, [], length, IfOk, OnOk, IfSome, slice_get};
ghost use Rattle.doc_values.specs.Doc.{IsDocument};
ghost use Rattle.document_records.specs.StoredDocument.{pairs_of, document_stored, document_with, with_stored, IsKept};

use crate::record::Record;
use crate::stored_value::read_value;
use attr_catalog::Catalog;
use doc_values::{AttrId, Doc, Utf, documents_are_maps};
use std::alloc::{AllocError, Global};

/// The document that a record stands for.
pub fn document(alloc: Global, catalog: &Catalog, stored: &Record) -> Result<Doc, AllocError>
    requires kept { IsKept (pairs_of catalog.now) stored.now }
    requires ordered { IsDocument (document_stored (pairs_of catalog.now) stored.now) }
    ensures ok { IfOk result (λ document. document ≡ document_stored (pairs_of catalog.now) stored.now) }
{
    documents_are_maps();
    let document = put_fields(alloc, catalog, stored)?;
    let _kept = document.len();
    Ok(document)
}

// A document with the fields of a record, put in by the order of their numbers.
fn put_fields(alloc: Global, catalog: &Catalog, stored: &Record) -> Result<Doc, AllocError>
    requires { IsKept (pairs_of catalog.now) stored.now }
    ensures ok { IfOk result (λ document. document ≡ document_with (pairs_of catalog.now) [] stored.now) }
{
    let mut document = Doc::new(alloc);
    for place in 0..stored.len() {
        put_field(alloc, catalog, stored, place, &mut document)?;
    }
    Ok(document)
}

fn put_field(
    alloc: Global,
    catalog: &Catalog,
    stored: &Record,
    place: u32,
    document: &mut Doc,
) -> Result<(), AllocError>
    requires within { place < length stored.now }
    requires kept { IsKept (pairs_of catalog.now) stored.now }
    ensures ok { OnOk result (IfSome (slice_get stored.now place) (λ field. document.new ≡ with_stored (pairs_of catalog.now) field document.old)) }
{
    let id = AttrId(stored.id(place));
    let value = read_value(alloc, catalog.kind(id), stored.bytes(place))?;
    let name = Utf::of(alloc, catalog.name(id))?;
    document.set(name, value)?;
    Ok(())
}
