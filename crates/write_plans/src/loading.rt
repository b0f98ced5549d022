ghost use Rattle.std.specs.Prelude.{◌≡◌, ◌≤◌, ◌<◌, ◌+◌, ◌^◌, ℕ, List, Err, All, true, false, length, fold, OnOk, OnErr};
ghost use Rattle.doc_values.specs.Weight.{weight_of};
ghost use Rattle.attr_catalog.specs.Catalog.{most_attributes};
ghost use Rattle.row_versions.specs.History.{most_versions};
ghost use Rattle.row_versions.specs.Order.{IsLatest};
ghost use Rattle.document_records.specs.Limits.{most_weight};
ghost use Rattle.document_records.specs.Pairs.{with_fields};
ghost use Rattle.document_records.specs.StoredDocument.{pairs_of};
ghost use Rattle.layout_store.specs.Documents.{most_fields};
ghost use Rattle.layout_store.specs.Shows.{ShowsTheSame};
ghost use Rattle.write_plans.specs.Collection.{with_documents, is_beyond};
ghost use Rattle.write_plans.specs.Becomes.{collection_in, IsSettled, HasBecome, StandsAsBefore};
ghost use Rattle.write_plans.specs.UnderWay.{CanBeTakenBack, AreAdded};

use doc_values::Documents;
use layout_store::{GrowFault, Layout};
use row_versions::{MOST_VERSIONS, latest_show, latest_stays, roll_backs_show};
use shown_rows::rows_follow_their_documents;

/// Loads documents into new rows at the commit that follows on so many, or leaves all as it was.
pub fn load(layout: &mut Layout, documents: &Documents, now: u64) -> Result<(), GrowFault>
    requires limits { All (λ document. length document ≤ most_fields) documents.now }
    requires light { All (λ document. weight_of document ≤ most_weight) documents.now }
    requires settled { IsSettled now layout.old }
    requires room { now + 1 < 2 ^ 64 }
    ensures ok { OnOk result (HasBecome (with_documents documents.now) now layout.old layout.new) }
    ensures within { OnOk result ((name : List ℕ) → is_beyond (with_documents documents.now (collection_in name layout.old now)) ≡ false) }
    ensures full { result ≡ Err GrowFault.Full → (name : List ℕ) → is_beyond (with_documents documents.now (collection_in name layout.old now)) ≡ true }
    ensures kept { OnErr result (StandsAsBefore layout.old layout.new) }
    ensures shows { OnErr result (ShowsTheSame layout.old layout.new) }
{
    rows_follow_their_documents();
    roll_backs_show();
    layout.keeps_the_rules();
    layout.versions().keeps_order();
    let versions = layout.versions().len() as usize;
    if documents.len() > MOST_VERSIONS - versions {
        return Err(GrowFault::Full);
    }
    let attributes = layout.catalog().len();
    match add_all(layout, documents, now + 1) {
        Ok(()) => Ok(()),
        Err(fault) => {
            layout.roll_back(now + 1, attributes);
            Err(fault)
        }
    }
}

// Adds a row for each document.
fn add_all(layout: &mut Layout, documents: &Documents, commit: u64) -> Result<(), GrowFault>
    requires limits { All (λ document. length document ≤ most_fields) documents.now }
    requires light { All (λ document. weight_of document ≤ most_weight) documents.now }
    requires latest { IsLatest commit layout.old.history.versions }
    requires room { length layout.old.history.versions + length documents.now ≤ most_versions }
    ensures undo { CanBeTakenBack commit layout.old layout.new }
    ensures ok { OnOk result (AreAdded commit documents.now (length documents.now) layout.old layout.new) }
    ensures within { OnOk result (length (fold with_fields (pairs_of layout.old.attributes) documents.now) ≤ most_attributes) }
    ensures full { result ≡ Err GrowFault.Full → most_attributes < length (fold with_fields (pairs_of layout.old.attributes) documents.now) }
{
    latest_show();
    latest_stays();
    roll_backs_show();
    for place in 0..documents.len() {
        let row = layout.versions().rows();
        layout.add_lent(row, &documents.get(place), commit)?;
    }
    layout.catalog().keeps_the_rules();
    Ok(())
}
