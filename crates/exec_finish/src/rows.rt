ghost use Rattle.std.specs.Prelude.{◌≡◌, ◌<◌, All, length};
ghost use Rattle.sql_eval.specs.Widths.{CanEvaluate};
ghost use Rattle.exec_finish.specs.Numbered.{rows_at};

use sql_eval::{CellColumn, SelectPlan, Tuples};
use std::marker::Model;

/// The rows of an answer: the numbers of their tuples, in the order of the rows. Their items and documents are lent from
/// the tuples where they are needed; their keys are computed, a column each.
#[derive(Drop)]
pub struct Rows<'a> {
    plan: &'a SelectPlan,
    tuples: &'a Tuples,
    columns: Vec<CellColumn>,
    numbers: Vec<u32>,
}

impl<'a> Model for Rows<'a> {
    ghost use Rattle.std.specs.Prelude.{◌<◌, List, All, length};
    ghost use Rattle.row_columns.specs.Contents.{Output};
    ghost use Rattle.sql_eval.specs.Widths.{CanEvaluate};
    ghost use Rattle.exec_finish.specs.Numbered.{rows_at};

    ghost Value = { List Output };

    ghost view = { λ r. rows_at r.plan.now r.tuples.now r.columns.items r.numbers.items };

    ghost invariant = { λ r. All (λ tuple. All (CanEvaluate tuple) r.plan.now.items) r.tuples.now × All (λ n. n < length r.tuples.now) r.numbers.items };
}

impl<'a> Rows<'a> {
    /// The rows of the tuples with these numbers, by a plan; their keys lie in columns.
    pub(crate) fn new(
        plan: &'a SelectPlan,
        tuples: &'a Tuples,
        columns: Vec<CellColumn>,
        numbers: Vec<u32>,
    ) -> Rows<'a>
        requires items { All (λ tuple. All (CanEvaluate tuple) plan.now.items) tuples.now }
        requires within { All (λ n. n < length tuples.now) numbers.items }
        ensures exact { result ≡ rows_at plan.now tuples.now columns.items numbers.items }
    {
        Rows {
            plan,
            tuples,
            columns,
            numbers,
        }
    }

    /// What the rows are read off.
    pub(crate) fn into_parts(self) -> (&'a SelectPlan, &'a Tuples, Vec<CellColumn>, Vec<u32>)
        ensures exact { self.entry ≡ rows_at result.0.now result.1.now result.2.items result.3.items }
        ensures items { All (λ tuple. All (CanEvaluate tuple) result.0.now.items) result.1.now }
        ensures within { All (λ n. n < length result.1.now) result.3.items }
    {
        let Rows {
            plan,
            tuples,
            columns,
            numbers,
        } = self;
        (plan, tuples, columns, numbers)
    }
}
