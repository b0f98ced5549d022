ghost use Rattle.std.specs.Prelude.{◌≡◌, All, []};
ghost use Rattle.sql_eval.specs.Widths.{CanEvaluate};
ghost use Rattle.exec_finish.specs.Distinct.{is_alike};
ghost use Rattle.exec_finish.specs.Fed.{row_fed};
ghost use Rattle.exec_finish.specs.Plain.{plain_row};
ghost use Rattle.exec_finish.specs.SameRows.{is_alike_equivalence, fed_alike};
ghost use Rattle.std.specs.Cmp.{partial_equiv_from_equiv};

use crate::feeding::{feed_document, feed_items};
use crate::likeness::{have_same_document, have_same_items};
use crate::values::document_of;
use sql_eval::{SelectPlan, Sides};
use std::hash::{Hash, Hasher};
use std::marker::Model;

/// A row as a key of a set, which is equal to another where they are alike: its keys do not count. Its items are lent.
#[derive(Drop)]
pub(crate) struct Alike<'a> {
    plan: &'a SelectPlan,
    tuple: Sides<'a>,
}

impl<'a> Model for Alike<'a> {
    ghost use Rattle.std.specs.Prelude.{All, []};
    ghost use Rattle.row_columns.specs.Contents.{Output};
    ghost use Rattle.sql_eval.specs.Widths.{CanEvaluate};
    ghost use Rattle.exec_finish.specs.Plain.{plain_row};

    ghost Value = { Output };

    ghost view = { λ a. plain_row a.plan.now.star a.plan.now.items [] a.tuple };

    ghost invariant = { λ a. All (CanEvaluate a.tuple) a.plan.now.items };
}

impl<'a> Alike<'a> {
    pub(crate) fn new(plan: &'a SelectPlan, tuple: Sides<'a>) -> Alike<'a>
        requires { All (CanEvaluate tuple) plan.now.items }
        ensures exact { result ≡ plain_row plan.now.star plan.now.items [] tuple.entry }
    {
        Alike { plan, tuple }
    }
}

impl<'a> PartialEq for Alike<'a> {
    ghost eq = { is_alike };

    ghost laws = { partial_equiv_from_equiv is_alike_equivalence };

    fn eq(&self, other: &Alike<'a>) -> bool {
        let items = self.plan.items.as_slice();
        let others = other.plan.items.as_slice();
        have_same_items(items, &self.tuple, others, &other.tuple)
            && have_same_document(
                document_of(self.plan.star, &self.tuple),
                document_of(other.plan.star, &other.tuple),
            )
    }
}

impl<'a> Eq for Alike<'a> {
    ghost laws = { is_alike_equivalence };
}

impl<'a> Hash for Alike<'a> {
    ghost hash_input = { row_fed };

    ghost respects_eq = { fed_alike };

    fn hash<H: Hasher>(&self, state: &mut H) {
        feed_items(self.plan.items.as_slice(), &self.tuple, state);
        feed_document(document_of(self.plan.star, &self.tuple), state);
    }
}
