ghost use Rattle.std.specs.Prelude.{◌≡◌, IfOk};

use crate::copying::copy_all;
use crate::expr::Expr;
use crate::from_plan::FromPlan;
use crate::key_plan::KeyPlan;
use crate::plan_copying::{copy_condition, copy_keys, copy_refs};
use crate::slot::Slot;
use doc_values::ColRef;
use sqlite_items::Items;
use std::alloc::{AllocError, Global};

/// A question whose columns are places in rows.
#[derive(Drop)]
pub struct SelectPlan {
    pub from: FromPlan,
    /// The columns that are read of each table.
    pub refs: Items<Items<ColRef>>,
    /// Whole documents are asked for.
    pub star: bool,
    pub test: Option<Expr>,
    pub grouping: Items<Slot>,
    pub grouped: bool,
    pub having: Option<Expr>,
    pub items: Items<Expr>,
    pub distinct: bool,
    pub keys: Items<KeyPlan>,
    pub limit: Option<u64>,
}

impl SelectPlan {
    /// An equal plan of its own.
    pub fn copy(&self, alloc: Global) -> Result<SelectPlan, AllocError>
        ensures ok { IfOk result (λ copy. copy ≡ self.now) }
    {
        Ok(SelectPlan {
            from: self.from.copy(alloc)?,
            refs: copy_refs(alloc, self.refs.as_slice())?,
            star: self.star,
            test: copy_condition(alloc, &self.test)?,
            grouping: Items::from_slice(alloc, self.grouping.as_slice())?,
            grouped: self.grouped,
            having: copy_condition(alloc, &self.having)?,
            items: copy_all(alloc, self.items.as_slice())?,
            distinct: self.distinct,
            keys: copy_keys(alloc, self.keys.as_slice())?,
            limit: self.limit,
        })
    }
}
