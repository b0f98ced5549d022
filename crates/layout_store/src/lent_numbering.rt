ghost use Rattle.std.specs.Prelude.{◌≡◌, ◌≤◌, ◌<◌, Some, Err, All, length, slice_get, IfOk, OnOk};
ghost use Rattle.doc_values.specs.Weight.{weight_of};
ghost use Rattle.reservoir_record.specs.Spelling.{values};
ghost use Rattle.attr_catalog.specs.Catalog.{most_attributes};
ghost use Rattle.document_records.specs.Limits.{most_weight};
ghost use Rattle.document_records.specs.Parts.{AreIn};
ghost use Rattle.document_records.specs.StoredDocument.{pairs_of};
ghost use Rattle.layout_store.specs.Numbering.{pairs_with, with_fields, HasGrown, HaveEntries, fields_made, IsRecordOf};

use crate::grow_fault::GrowFault;
use crate::numbering::number_pair;
use attr_catalog::Catalog;
use doc_values::{AttrId, DocRef, Kind, documents_are_maps};
use document_records::{Parts, Record, kind_stored, records_keep_documents};
use std::alloc::{AllocError, Global};

/// The record of a document that is lent, whose new pairs are appended to the catalog. Beside it is kept which attribute
/// followed which one the last time, at the number of the one before and 1.
pub(crate) fn record_of_lent(
    alloc: Global,
    catalog: &mut Catalog,
    followers: &mut Vec<u32>,
    document: &DocRef<'_>,
    entries: &mut Vec<(u32, usize)>,
    parts: &mut Parts,
) -> Result<Record, GrowFault>
    requires light { weight_of document.now ≤ most_weight }
    ensures grown { HasGrown catalog.old catalog.new }
    ensures pairs { OnOk result (pairs_of catalog.new ≡ with_fields (pairs_of catalog.old) document.now) }
    ensures within { OnOk result (length (with_fields (pairs_of catalog.old) document.now) ≤ most_attributes) }
    ensures ok { IfOk result (λ fields. IsRecordOf (pairs_of catalog.new) document.now fields) }
    ensures full { result ≡ Err GrowFault.Full → most_attributes < length (with_fields (pairs_of catalog.old) document.now) }
{
    records_keep_documents();
    let _kept = document.len();
    number_lent(catalog, followers, document, entries)?;
    catalog.keeps_the_rules();
    entries.sort_unstable();
    fill_lent(parts, document, entries)?;
    Ok(parts.record(alloc)?)
}

// Numbers the fields of a document. Behind each attribute the one is tried first that followed it the last time.
fn number_lent(
    catalog: &mut Catalog,
    followers: &mut Vec<u32>,
    document: &DocRef<'_>,
    entries: &mut Vec<(u32, usize)>,
) -> Result<(), GrowFault>
    ensures grown { HasGrown catalog.old catalog.new }
    ensures ok { OnOk result (HaveEntries (pairs_of catalog.new) 0 document.now entries.new.items) }
    ensures pairs { OnOk result (pairs_of catalog.new ≡ with_fields (pairs_of catalog.old) document.now) }
    ensures full { result ≡ Err GrowFault.Full → most_attributes < length (with_fields (pairs_of catalog.old) document.now) }
{
    entries.clear();
    let mut slot = 0;
    for place in 0..document.len() {
        let (name, value) = document.field(place);
        let guess = AttrId(followers.get(slot).copied().unwrap_or(0));
        let id = number_guessed(catalog, guess, name, kind_stored(value))?;
        note_follower(followers, slot, id)?;
        slot = id as usize + 1;
        entries.push((id, place))?;
    }
    Ok(())
}

// Notes which attribute followed, in the slot of the one before it.
fn note_follower(followers: &mut Vec<u32>, slot: usize, id: u32) -> Result<(), AllocError> {
    if followers.len() <= slot {
        followers.resize(slot.saturating_add(1), 0)?;
    }
    if let Some(follower) = followers.get_mut(slot) {
        *follower = id;
    }
    Ok(())
}

// The number of a pair, which is appended where it is new.
fn number_guessed(
    catalog: &mut Catalog,
    guess: AttrId,
    name: &str,
    kind: Kind,
) -> Result<u32, GrowFault>
    ensures grown { HasGrown catalog.old catalog.new }
    ensures number { IfOk result (λ id. slice_get (pairs_of catalog.new) id ≡ Some (name.now, kind)) }
    ensures pairs { OnOk result (pairs_of catalog.new ≡ pairs_with (pairs_of catalog.old) (name.now, kind)) }
    ensures full { result ≡ Err GrowFault.Full → most_attributes < length (pairs_with (pairs_of catalog.old) (name.now, kind)) }
{
    match catalog.find_guessed(guess, name, kind) {
        Some(id) => Ok(id.0),
        None => number_pair(catalog, name, kind),
    }
}

// Puts the fields of a document's entries in place of those that were there.
fn fill_lent(
    parts: &mut Parts,
    document: &DocRef<'_>,
    entries: &[(u32, usize)],
) -> Result<(), AllocError>
    requires within { All (λ entry. entry.1 < length document.now) entries.now }
    requires fit { length (values (fields_made document.now entries.now)) ≤ most_weight }
    ensures ok { OnOk result (AreIn (fields_made document.now entries.now) parts.new) }
{
    documents_are_maps();
    let _kept = document.len();
    parts.clear();
    for entry in entries {
        let (_, value) = document.field(entry.1);
        parts.push(entry.0, value)?;
    }
    Ok(())
}
