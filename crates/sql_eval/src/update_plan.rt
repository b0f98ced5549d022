use crate::expr::Expr;
use crate::set_plan::SetPlan;
use doc_values::{ColRef, Utf};
use sqlite_items::Items;

/// An update whose columns are places in rows.
#[derive(Drop)]
pub struct UpdatePlan {
    pub collection: Utf,
    /// The columns that are read.
    pub refs: Items<ColRef>,
    pub sets: Items<SetPlan>,
    pub test: Option<Expr>,
}
