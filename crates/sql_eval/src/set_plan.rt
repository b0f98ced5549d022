use crate::expr::Expr;
use doc_values::Utf;

/// A name that an update writes, and what it writes there.
#[derive(Drop)]
pub struct SetPlan {
    pub name: Utf,
    pub expr: Expr,
}
