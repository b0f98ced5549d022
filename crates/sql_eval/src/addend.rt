use crate::expr::Expr;

/// A member of a sum.
#[cycle(expr)]
#[derive(Drop)]
pub struct Addend {
    /// It is taken away; false of a sum's first member.
    pub minus: bool,
    pub expr: Expr,
}
