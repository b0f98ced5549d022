ghost use Rattle.std.specs.Prelude.{◌≡◌, IfOk};

use crate::join_plan::JoinPlan;
use crate::plan_copying::{copy_joins, copy_names};
use doc_values::Utf;
use sqlite_items::Items;
use std::alloc::{AllocError, Global};

/// The tables of a question.
#[derive(Drop)]
pub struct FromPlan {
    /// The names of the collections.
    pub tables: Items<Utf>,
    /// One for each table after the first.
    pub joins: Items<JoinPlan>,
}

impl FromPlan {
    /// An equal plan of its own.
    pub fn copy(&self, alloc: Global) -> Result<FromPlan, AllocError>
        ensures ok { IfOk result (λ copy. copy ≡ self.now) }
    {
        Ok(FromPlan {
            tables: copy_names(alloc, self.tables.as_slice())?,
            joins: copy_joins(alloc, self.joins.as_slice())?,
        })
    }
}
