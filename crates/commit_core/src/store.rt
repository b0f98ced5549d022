ghost use Rattle.std.specs.Prelude.{◌≡◌, [], ◌∷◌, List, length, map, IfOk, OnOk, OnErr, IsSome, None, false};

use crate::collections::Collections;
use crate::entry::Entry;
use crate::lines::{full_line, ok_line};
use crate::planned::Planned;
use crate::prepared::Prepared;
use crate::prepared_sort::PreparedSort;
use crate::reading::Reading;
use crate::reply::Reply;
use crate::state_laws::{loads_are_light, states_keep_the_rules};
use doc_values::{Bytes, Documents, Utf, documents_are_maps};
use layout_store::GrowFault;
use query_meaning::{plans_can_be_run, plans_keep_meaning, plans_read_what_is_asked};
use row_columns::TableRows;
use shown_rows::rows_follow_their_documents;
use sql_eval::SelectPlan;
use sqlite_items::Items;
use std::alloc::{AllocError, Global};
use std::marker::Model;

/// A store of documents; seen as the commits made so far.
#[derive(Drop)]
pub struct Core {
    commits: Vec<Entry>,
    collections: Collections,
}

impl Model for Core {
    ghost use Rattle.commit_core.specs.Commits.{CoreOf, texts_of};
    ghost use Rattle.commit_core.specs.Stored.{AreTrueTo};

    ghost Value = { CoreOf };

    ghost view = { λ c. record { commits = c.commits.items } };

    ghost invariant = { λ c. AreTrueTo (texts_of c.commits.items) c.collections };
}

impl Core {
    ghost use Rattle.commit_core.specs.Agreement.{Agrees, sort_of};
    ghost use Rattle.query_meaning.specs.Plans.{rows_under};
    ghost use Rattle.commit_core.specs.Commits.{texts_of};
    ghost use Rattle.commit_core.specs.OneWrite.{IsWrite, told_over, state_of};
    ghost use Rattle.commit_core.specs.Plan.{Plan, plan_of, write};
    ghost use Rattle.commit_core.specs.Planned.{IsReadAs};
    ghost use Rattle.commit_core.specs.Query.{documents_asked};
    ghost use Rattle.commit_core.specs.Replies.{reply_at};
    ghost use Rattle.commit_core.specs.Write.{loads};

    /// A store with no commit.
    pub fn new(alloc: Global) -> Core
        ensures exact { result.commits ≡ [] }
    {
        Core {
            commits: Vec::new(alloc),
            collections: Collections::new(alloc),
        }
    }

    /// The number of commits.
    pub fn now(&self) -> u64
        ensures exact { result ≡ length self.now.commits }
    {
        self.commits.len() as u64
    }

    /// Makes a write. An accepted one is a commit.
    pub fn write(&mut self, caller: u32, prepared: &Prepared) -> Result<Reply, AllocError>
        requires { sort_of (plan_of prepared.now) ≡ PreparedSort.Write }
        ensures ok { IfOk result (λ reply. IsWrite caller prepared.now self.old.commits self.new.commits reply) }
        ensures memory { OnErr result (self.new ≡ self.old) }
    {
        let Planned::Write {
            collection,
            documents,
        } = prepared.planned()
        else {
            unreachable!()
        };
        self.load(caller, prepared.text(), collection, documents)
    }

    /// The reply to a text that is refused whatever the store holds.
    pub fn refusal(&self, prepared: &Prepared) -> Result<Reply, AllocError>
        requires { sort_of (plan_of prepared.now) ≡ PreparedSort.Refused }
        ensures ok { IfOk result (λ reply. reply ≡ reply_at (length self.now.commits) (told_over self.now.commits prepared.now)) }
    {
        let Planned::Refused(line) = prepared.planned() else {
            unreachable!()
        };
        let line = Vec::from_slice(self.allocator(), line.items())?;
        Ok(self.refused(Bytes::from_vec(line)))
    }

    /// Begins a query at the newest number, with references that serve it; nothing is read yet.
    pub fn begin(&self, prepared: &Prepared) -> Result<Reading, AllocError>
        requires { sort_of (plan_of prepared.now) ≡ PreparedSort.Read }
        ensures ok { IfOk result (λ reading. reading ≡ record { text = prepared.now; at = length self.now.commits; references = reading.references; rows = None }) }
        ensures agrees { IfOk result (λ reading. Agrees reading (texts_of self.now.commits)) }
    {
        let Planned::Read(plan) = prepared.planned() else {
            unreachable!()
        };
        Ok(Reading::new(
            prepared.text().copy()?,
            plan.copy(self.allocator())?,
            self.now(),
        ))
    }

    /// Reads all that a query asks for at the newest number.
    pub fn reread(&self, reading: &mut Reading) -> Result<(), AllocError>
        ensures ok { OnOk result (Agrees reading.new (texts_of self.now.commits)) }
        ensures read { OnOk result (IsSome reading.new.rows) }
        ensures exact { OnOk result ((reading.new.at ≡ length self.now.commits) × (reading.new.text ≡ reading.old.text) × (reading.new.references ≡ reading.old.references)) }
        ensures memory { OnErr result (reading.new ≡ reading.old) }
    {
        states_keep_the_rules();
        documents_are_maps();
        plans_keep_meaning();
        let rows = self.rows(reading.plan())?;
        reading.fill(self.now(), rows);
        Ok(())
    }

    fn load(
        &mut self,
        caller: u32,
        text: &Utf,
        collection: &Utf,
        documents: &Documents,
    ) -> Result<Reply, AllocError>
        requires { plan_of text.now ≡ write (loads collection.now documents.now) }
        ensures ok { IfOk result (λ reply. IsWrite caller text.now self.old.commits self.new.commits reply) }
        ensures memory { OnErr result (self.new ≡ self.old) }
    {
        loads_are_light();
        states_keep_the_rules();
        rows_follow_their_documents();
        let entry = Entry {
            caller,
            text: text.copy()?,
        };
        let alloc = self.allocator();
        let body = ok_line(alloc, documents.len())?;
        let now = self.now();
        self.commits.reserve(1)?;
        match self.collections.load(collection.text(), documents, now) {
            Ok(()) => {
                // Room was made, so this never fails.
                self.commits.push(entry)?;
                Ok(Reply {
                    at: self.commits.len() as u64,
                    accepted: true,
                    body,
                })
            }
            Err(GrowFault::Full) => Ok(self.refused(full_line(alloc)?)),
            Err(GrowFault::Memory) => Err(AllocError),
        }
    }

    // The reply that refuses a text with a line.
    fn refused(&self, line: Bytes) -> Reply
        ensures exact { result ≡ record { at = length self.now.commits; accepted = false; body = line } }
    {
        Reply {
            at: self.now(),
            accepted: false,
            body: line,
        }
    }

    // The rows of each table that a question reads under the references of its plan.
    fn rows(&self, plan: &SelectPlan) -> Result<Items<TableRows>, AllocError>
        requires { (p : Plan) × IsReadAs plan.now p }
        ensures ok { IfOk result (λ tables. (p : Plan) (asked : IsReadAs plan.now p) → tables ≡ rows_under plan.now.refs asked.question (documents_asked asked.question (state_of self.now.commits))) }
    {
        let rows = self.rows_of_one(plan)?;
        let mut tables = Items::new(self.allocator());
        tables.push(rows)?;
        Ok(tables)
    }

    // The same of the one table of a question.
    fn rows_of_one(&self, plan: &SelectPlan) -> Result<TableRows, AllocError>
        requires { (p : Plan) × IsReadAs plan.now p }
        ensures ok { IfOk result (λ rows. (p : Plan) (asked : IsReadAs plan.now p) → rows ∷ [] ≡ rows_under plan.now.refs asked.question (documents_asked asked.question (state_of self.now.commits))) }
    {
        states_keep_the_rules();
        plans_can_be_run();
        plans_read_what_is_asked();
        let Some(collection) = plan.from.tables.get(0) else {
            unreachable!()
        };
        let Some(columns) = plan.refs.get(0) else {
            unreachable!()
        };
        match self.collections.get(collection.text()) {
            Some(table) => table.rows(self.allocator(), plan, columns.as_slice(), self.now()),
            None => {
                let alloc = self.allocator();
                Ok(TableRows::new(0, Vec::new(alloc), Vec::new(alloc)))
            }
        }
    }

    fn allocator(&self) -> Global {
        *self.commits.allocator()
    }
}
