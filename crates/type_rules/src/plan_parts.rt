use sql_eval::{Expr, KeyPlan};
use sqlite_items::Items;

// The expressions of a plan.
#[derive(Drop)]
pub(crate) struct PlanParts {
    pub(crate) items: Items<Expr>,
    pub(crate) test: Option<Expr>,
    pub(crate) keys: Items<KeyPlan>,
}
