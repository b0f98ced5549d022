ghost use Rattle.std.specs.Prelude.{◌≡◌};

use std::cmp::Ordering;

/// The six comparisons.
#[derive(Clone, Copy, Debug, PartialEq, Eq)]
pub enum CompareOp {
    Eq,
    Ne,
    Lt,
    Le,
    Gt,
    Ge,
}

impl CompareOp {
    ghost use Rattle.doc_values.specs.Order.{admits};

    /// Whether the comparison is true of two values that compare so.
    pub fn admits(self, ordering: Ordering) -> bool
        ensures exact { result ≡ admits self ordering }
    {
        match self {
            CompareOp::Eq => ordering.is_eq(),
            CompareOp::Ne => ordering.is_ne(),
            CompareOp::Lt => ordering.is_lt(),
            CompareOp::Le => ordering.is_le(),
            CompareOp::Gt => ordering.is_gt(),
            CompareOp::Ge => ordering.is_ge(),
        }
    }
}
