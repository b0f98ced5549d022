ghost use Rattle.std.specs.Prelude.{◌≡◌, IfOk};

use crate::expr::Expr;
use std::alloc::{AllocError, Global};

/// A key by which rows are put in order.
#[derive(Drop)]
pub struct KeyPlan {
    pub expr: Expr,
    pub descending: bool,
}

impl KeyPlan {
    /// An equal plan of its own.
    pub fn copy(&self, alloc: Global) -> Result<KeyPlan, AllocError>
        ensures ok { IfOk result (λ copy. copy ≡ self.now) }
    {
        Ok(KeyPlan {
            expr: self.expr.copy(alloc)?,
            descending: self.descending,
        })
    }
}
