ghost use Rattle.std.specs.Prelude.{◌≡◌, IfOk};

use crate::addend::Addend;
use crate::copying::copy_expr;
use crate::slot::Slot;
use doc_values::{CompareOp, Kind, Utf};
use sql_tree::AggCall;
use sqlite_items::{Boxed, Items};
use std::alloc::{AllocError, Global};

/// An expression whose columns are places in rows.
#[cycle(expr)]
#[derive(Drop)]
pub enum Expr {
    Number(u64),
    Text(Utf),
    Bool(bool),
    Null,
    Column(Slot),
    /// A column whose values are wanted to be of a kind.
    Wanted {
        kind: Kind,
        column: Slot,
    },
    Or(Items<Expr>),
    And(Items<Expr>),
    Not(Boxed<Expr>),
    Compare {
        op: CompareOp,
        left: Boxed<Expr>,
        right: Boxed<Expr>,
    },
    IsNull {
        arg: Boxed<Expr>,
        negated: bool,
    },
    /// It stands only where the argument has a kind by itself.
    Among {
        arg: Boxed<Expr>,
        members: Items<Expr>,
        negated: bool,
    },
    /// It stands only where the argument has a kind by itself.
    Between {
        arg: Boxed<Expr>,
        low: Boxed<Expr>,
        high: Boxed<Expr>,
        negated: bool,
    },
    Like {
        arg: Boxed<Expr>,
        pattern: Utf,
        negated: bool,
    },
    /// Whether the array in a column has the value.
    AnyOf {
        arg: Boxed<Expr>,
        column: Slot,
    },
    Sum(Items<Addend>),
    Product(Items<Expr>),
    Minus(Boxed<Expr>),
    CountAll,
    Aggregate {
        call: AggCall,
        arg: Boxed<Expr>,
    },
}

impl Expr {
    /// An equal expression of its own.
    pub fn copy(&self, alloc: Global) -> Result<Expr, AllocError>
        ensures ok { IfOk result (λ copy. copy ≡ self.now) }
    {
        copy_expr(alloc, self)
    }
}
