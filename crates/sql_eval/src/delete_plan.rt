use crate::expr::Expr;
use doc_values::{ColRef, Utf};
use sqlite_items::Items;

/// A deletion whose columns are places in rows.
#[derive(Drop)]
pub struct DeletePlan {
    pub collection: Utf,
    /// The columns that are read.
    pub refs: Items<ColRef>,
    pub test: Option<Expr>,
}
