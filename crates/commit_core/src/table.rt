ghost use Rattle.std.specs.Prelude.{◌≡◌, ◌≤◌, ◌<◌, ◌+◌, ◌^◌, Err, All, true, false, length, map, IfOk, OnOk, OnErr};

use doc_values::{ColRef, Documents, Utf};
use layout_store::{GrowFault, Layout};
use query_meaning::most_needed;
use row_columns::TableRows;
use scan_batches::{Scan, batch};
use sql_eval::SelectPlan;
use std::alloc::{AllocError, Global};
use std::marker::Model;
use write_plans::load;

/// One collection: its name and its layout.
#[derive(Drop)]
pub(crate) struct Table {
    name: Utf,
    layout: Layout,
}

impl Model for Table {
    ghost use Rattle.std.specs.Coded.{codes};
    ghost use Rattle.std.specs.FinMap as map;
    ghost use Rattle.doc_values.specs.contracts.value.Value as of_value;
    ghost use Rattle.commit_core.specs.Stored.{Stored};

    ghost Value = { Stored };

    ghost coded = { Prim.hlevel (codes, map.code, of_value.the_row.coded) };

    ghost view = { λ t. record { name = t.name; storage = t.layout } };
}

impl Table {
    ghost use Rattle.doc_values.specs.Doc.{IsDocument};
    ghost use Rattle.doc_values.specs.Weight.{weight_of};
    ghost use Rattle.document_records.specs.Limits.{most_weight};
    ghost use Rattle.layout_store.specs.Documents.{most_fields};
    ghost use Rattle.query_meaning.specs.Plans.{rows_alone};
    ghost use Rattle.query_meaning.specs.Runs.{CanBeTested};
    ghost use Rattle.shown_rows.specs.Rows.{rows_at};
    ghost use Rattle.write_plans.specs.Becomes.{IsSettled};
    ghost use Rattle.commit_core.specs.Write.{with_documents, is_beyond};
    ghost use Rattle.commit_core.specs.Stored.{nothing_stored, stored_in, HasChanged, IsAsBefore};

    /// A collection that nothing was put into.
    pub(crate) fn new(alloc: Global, name: &str) -> Result<Table, AllocError>
        ensures ok { IfOk result (λ table. table ≡ nothing_stored name.now) }
    {
        let name = Utf::of(alloc, name)?;
        Ok(Table {
            name,
            layout: Layout::new(alloc),
        })
    }

    /// The name of the collection.
    pub(crate) fn name(&self) -> &str
        ensures exact { result.now ≡ self.now.name }
    {
        self.name.text()
    }

    /// Puts documents into new rows at the commit that follows on so many, or leaves all as it was.
    pub(crate) fn load(&mut self, documents: &Documents, now: u64) -> Result<(), GrowFault>
        requires limits { All (λ document. length document ≤ most_fields) documents.now }
        requires light { All (λ document. weight_of document ≤ most_weight) documents.now }
        requires settled { IsSettled now self.old.storage }
        requires room { now + 1 < 2 ^ 64 }
        ensures ok { OnOk result (HasChanged (with_documents documents.now) now self.old self.new) }
        ensures within { OnOk result (is_beyond (with_documents documents.now (stored_in now self.old)) ≡ false) }
        ensures full { result ≡ Err GrowFault.Full → is_beyond (with_documents documents.now (stored_in now self.old)) ≡ true }
        ensures kept { OnErr result (IsAsBefore self.old self.new) }
    {
        load(&mut self.layout, documents, now)
    }

    /// The rows that a plan reads of its one table after so many commits: of the documents that its condition keeps, as
    /// many as its answer needs, each with a value, or NULL, for each column, and with the document where whole ones are
    /// asked for.
    pub(crate) fn rows(
        &self,
        alloc: Global,
        plan: &SelectPlan,
        columns: &[ColRef],
        now: u64,
    ) -> Result<TableRows, AllocError>
        requires settled { IsSettled now self.now.storage }
        requires tested { CanBeTested plan.now }
        ensures ok { IfOk result (λ rows. rows ≡ rows_alone plan.now columns.now (map (λ row. row.document) (rows_at self.now.storage now))) }
    {
        let rows = self.layout.versions().rows();
        let most = most_needed(plan);
        let mut scan = Scan::new(
            alloc,
            &self.layout,
            now,
            columns,
            plan.star,
            &plan.test,
            most,
        )?;
        batch(&self.layout, &mut scan, rows.max(1))?;
        Ok(scan.into_rows())
    }
}
