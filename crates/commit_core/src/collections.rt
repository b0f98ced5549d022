ghost use Rattle.std.specs.Prelude.{◌≡◌, ◌≤◌, ◌<◌, ◌+◌, ◌^◌, [], All, Err, None, OnOk, OnErr, false, length, map, option_copied, position, true};

use crate::table::Table;
use doc_values::Documents;
use layout_store::GrowFault;
use row_versions::latest_stays;
use shown_rows::rows_follow_their_documents;
use std::alloc::Global;
use std::marker::Model;

/// The most collections that there may be.
const MOST_COLLECTIONS: usize = 256;

/// The collections, in the order of their first load.
#[derive(Drop)]
pub(crate) struct Collections {
    tables: Vec<Table>,
}

impl Model for Collections {
    ghost use Rattle.std.specs.Prelude.{◌≤◌, List, length};
    ghost use Rattle.std.specs.Coded.{codes};
    ghost use Rattle.std.specs.FinMap as map;
    ghost use Rattle.doc_values.specs.contracts.value.Value as of_value;
    ghost use Rattle.commit_core.specs.State.{most_collections};
    ghost use Rattle.commit_core.specs.Stored.{Stored};

    ghost Value = { List Stored };

    ghost coded = { Prim.hlevel (codes, map.code, of_value.the_row.coded) };

    ghost view = { λ c. c.tables.items };

    ghost invariant = { λ c. length c.tables.items ≤ most_collections };
}

impl Collections {
    ghost use Rattle.doc_values.specs.Weight.{weight_of};
    ghost use Rattle.document_records.specs.Limits.{most_weight};
    ghost use Rattle.layout_store.specs.Documents.{most_fields};
    ghost use Rattle.commit_core.specs.Write.{is_full, with_load};
    ghost use Rattle.commit_core.specs.Stored.{stored_in, is_table, table_at, AreSettled, HaveBecome, AreAsBefore};

    /// No collection.
    pub(crate) fn new(alloc: Global) -> Collections
        ensures exact { result ≡ [] }
    {
        Collections {
            tables: Vec::new(alloc),
        }
    }

    /// The collection with a name, if there is one.
    pub(crate) fn get(&self, name: &str) -> Option<&Table>
        ensures exact { option_copied result ≡ table_at name.now self.now }
    {
        self.tables.iter().find(|table| name == table.name())
    }

    /// Puts documents into a collection at the commit that follows on so many; it stands behind the others if it is new.
    pub(crate) fn load(
        &mut self,
        name: &str,
        documents: &Documents,
        now: u64,
    ) -> Result<(), GrowFault>
        requires limits { All (λ document. length document ≤ most_fields) documents.now }
        requires light { All (λ document. weight_of document ≤ most_weight) documents.now }
        requires settled { AreSettled now self.old }
        requires room { now + 1 < 2 ^ 64 }
        ensures ok { OnOk result (HaveBecome (with_load name.now documents.now (map (stored_in now) self.old)) now self.old self.new) }
        ensures within { OnOk result (is_full name.now (with_load name.now documents.now (map (stored_in now) self.old)) ≡ false) }
        ensures full { result ≡ Err GrowFault.Full → is_full name.now (with_load name.now documents.now (map (stored_in now) self.old)) ≡ true }
        ensures kept { OnErr result (AreAsBefore self.old self.new) }
    {
        rows_follow_their_documents();
        latest_stays();
        match self.place(name) {
            Some(place) => {
                let table = &mut self.tables[place];
                table.load(documents, now)
            }
            None => self.load_new(name, documents, now),
        }
    }

    // Where the collection with a name stands.
    fn place(&self, name: &str) -> Option<usize>
        ensures exact { result ≡ position (is_table name.now) self.now }
    {
        self.tables.iter().position(|table| name == table.name())
    }

    // Puts documents into a collection that is new.
    fn load_new(&mut self, name: &str, documents: &Documents, now: u64) -> Result<(), GrowFault>
        requires unknown { position (is_table name.now) self.old ≡ None }
        requires limits { All (λ document. length document ≤ most_fields) documents.now }
        requires light { All (λ document. weight_of document ≤ most_weight) documents.now }
        requires settled { AreSettled now self.old }
        requires room { now + 1 < 2 ^ 64 }
        ensures ok { OnOk result (HaveBecome (with_load name.now documents.now (map (stored_in now) self.old)) now self.old self.new) }
        ensures within { OnOk result (is_full name.now (with_load name.now documents.now (map (stored_in now) self.old)) ≡ false) }
        ensures full { result ≡ Err GrowFault.Full → is_full name.now (with_load name.now documents.now (map (stored_in now) self.old)) ≡ true }
        ensures kept { OnErr result (AreAsBefore self.old self.new) }
    {
        rows_follow_their_documents();
        latest_stays();
        if self.tables.len() >= MOST_COLLECTIONS {
            return Err(GrowFault::Full);
        }
        let mut table = Table::new(*self.tables.allocator(), name)?;
        table.load(documents, now)?;
        self.tables.push(table)?;
        Ok(())
    }
}
