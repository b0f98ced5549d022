ghost use Rattle.std.specs.Prelude.{◌≡◌, IfOk};

use crate::expr::Expr;
use crate::plan_copying::copy_condition;
use std::alloc::{AllocError, Global};

/// How a table after the first is joined to those before it.
#[derive(Drop)]
pub struct JoinPlan {
    /// A tuple that meets no row stays, with the side missing.
    pub left: bool,
    pub on: Option<Expr>,
}

impl JoinPlan {
    /// An equal plan of its own.
    pub fn copy(&self, alloc: Global) -> Result<JoinPlan, AllocError>
        ensures ok { IfOk result (λ copy. copy ≡ self.now) }
    {
        Ok(JoinPlan {
            left: self.left,
            on: copy_condition(alloc, &self.on)?,
        })
    }
}
