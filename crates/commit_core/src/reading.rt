ghost use Rattle.std.specs.Prelude.{◌≡◌, IfOk, IsSome, ℕ, List, Some, None, take, false, length};
ghost use Rattle.commit_core.specs.Replies.{reply_at, told_of, state_after};

use crate::reply::Reply;
use doc_values::Utf;
use query_meaning::{answer, plans_can_be_run, plans_keep_meaning};
use row_columns::TableRows;
use sql_eval::SelectPlan;
use sqlite_items::Items;
use std::alloc::AllocError;
use std::marker::Model;

/// A question that is being answered; seen as its text, its number of commits, the references that it reads of each
/// table and the rows that were read.
#[derive(Drop)]
pub struct Reading {
    text: Utf,
    plan: SelectPlan,
    at: u64,
    tables: Option<Items<TableRows>>,
}

impl Model for Reading {
    ghost use Rattle.std.specs.Prelude.{IfSome};
    ghost use Rattle.commit_core.specs.Agreement.{ReadingOf};
    ghost use Rattle.commit_core.specs.Plan.{plan_of};
    ghost use Rattle.commit_core.specs.Planned.{IsReadAs};
    ghost use Rattle.query_meaning.specs.Runs.{AreRowsFor};

    ghost Value = { ReadingOf };

    ghost view = { λ r. record { text = r.text; at = r.at; references = r.plan.refs; rows = r.tables } };

    ghost invariant = { λ r. IsReadAs r.plan (plan_of r.text) × IfSome r.tables (AreRowsFor r.plan.refs) };
}

impl Reading {
    ghost use Rattle.doc_values.specs.Doc.{Fields};
    ghost use Rattle.sql_tree.specs.declared.select.Select.{Select};
    ghost use Rattle.commit_core.specs.declared.entry.Entry.{Entry as EntryOf};
    ghost use Rattle.commit_core.specs.Commits.{texts_of};
    ghost use Rattle.commit_core.specs.Agreement.{Agrees};
    ghost use Rattle.query_meaning.specs.Plans.{rows_under};
    ghost use Rattle.query_meaning.specs.Question.{answer_among};
    ghost use Rattle.commit_core.specs.Plan.{plan_of, read};
    ghost use Rattle.commit_core.specs.Planned.{IsReadAs};
    ghost use Rattle.query_meaning.specs.Runs.{AreRowsFor};

    /// A reading of a text over so many commits, for which nothing was read yet.
    pub(crate) fn new(text: Utf, plan: SelectPlan, at: u64) -> Reading
        requires { IsReadAs plan (plan_of text) }
        ensures exact { result ≡ record { text = text; at = at; references = plan.refs; rows = None } }
        ensures agrees { (entries : List EntryOf) → at ≡ length entries → Agrees result (texts_of entries) }
    {
        plans_keep_meaning();
        Reading {
            text,
            plan,
            at,
            tables: None,
        }
    }

    /// The plan of the question.
    pub(crate) fn plan(&self) -> &SelectPlan
        ensures exact { IsReadAs result.now (plan_of self.now.text) }
        ensures references { result.now.refs ≡ self.now.references }
    {
        &self.plan
    }

    /// Takes the rows of each table that were read over so many commits.
    pub(crate) fn fill(&mut self, at: u64, tables: Items<TableRows>)
        requires { AreRowsFor self.old.references tables }
        ensures exact { self.new ≡ record { text = self.old.text; at = at; references = self.old.references; rows = Some tables } }
    {
        self.at = at;
        self.tables = Some(tables);
    }

    /// The reply. Its number of commits is the reading's.
    pub fn finish(self) -> Result<Reply, AllocError>
        requires { IsSome self.rows }
        ensures ok { IfOk result (λ r. (texts : List (List ℕ)) → Agrees self texts →
            r ≡ reply_at self.at (told_of self.text (state_after (take self.at texts)))) }
        ensures exact { IfOk result (λ r. (question : Select) (tables : List (List Fields)) → plan_of self.text ≡ read question → length tables ≡ length question.tables →
            self.rows ≡ Some (rows_under self.references question tables) → r ≡ record { at = self.at; accepted = false; body = answer_among question tables }) }
    {
        plans_keep_meaning();
        plans_can_be_run();
        let Reading {
            plan,
            at,
            tables,
            ..
        } = self;
        let Some(tables) = tables else { unreachable!() };
        let body = answer(&plan, tables)?;
        Ok(Reply {
            at,
            accepted: false,
            body,
        })
    }
}
