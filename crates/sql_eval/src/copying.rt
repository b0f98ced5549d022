ghost use Rattle.std.specs.Prelude.{◌≡◌, true, IfOk};
ghost use Rattle.sql_eval.specs.Within.{is_in_between_or_like};

use crate::addend::Addend;
use crate::expr::Expr;
use sqlite_items::{Boxed, Items};
use std::alloc::{AllocError, Global};

// An equal expression of its own.
#[cycle(copying)]
pub(crate) fn copy_expr(alloc: Global, expr: &Expr) -> Result<Expr, AllocError>
    ensures ok { IfOk result (λ copy. copy ≡ expr.now) }
{
    match expr {
        &Expr::Number(n) => Ok(Expr::Number(n)),
        Expr::Text(text) => Ok(Expr::Text(text.copy()?)),
        &Expr::Bool(b) => Ok(Expr::Bool(b)),
        Expr::Null => Ok(Expr::Null),
        &Expr::Column(slot) => Ok(Expr::Column(slot)),
        &Expr::Wanted { kind, column } => Ok(Expr::Wanted { kind, column }),
        Expr::Or(members) => Ok(Expr::Or(copy_all(alloc, members.as_slice())?)),
        Expr::And(members) => Ok(Expr::And(copy_all(alloc, members.as_slice())?)),
        Expr::Not(arg) => Ok(Expr::Not(copy_boxed(alloc, arg.get())?)),
        Expr::Compare { op, left, right } => Ok(Expr::Compare {
            op: *op,
            left: copy_boxed(alloc, left.get())?,
            right: copy_boxed(alloc, right.get())?,
        }),
        Expr::IsNull { arg, negated } => Ok(Expr::IsNull {
            arg: copy_boxed(alloc, arg.get())?,
            negated: *negated,
        }),
        Expr::Among { .. } | Expr::Between { .. } | Expr::Like { .. } => copy_test(alloc, expr),
        Expr::AnyOf { arg, column } => Ok(Expr::AnyOf {
            arg: copy_boxed(alloc, arg.get())?,
            column: *column,
        }),
        Expr::Sum(addends) => Ok(Expr::Sum(copy_addends(alloc, addends.as_slice())?)),
        Expr::Product(members) => Ok(Expr::Product(copy_all(alloc, members.as_slice())?)),
        Expr::Minus(arg) => Ok(Expr::Minus(copy_boxed(alloc, arg.get())?)),
        Expr::CountAll => Ok(Expr::CountAll),
        Expr::Aggregate { call, arg } => Ok(Expr::Aggregate {
            call: *call,
            arg: copy_boxed(alloc, arg.get())?,
        }),
    }
}

// The same of IN, BETWEEN and LIKE.
#[cycle(copying)]
fn copy_test(alloc: Global, expr: &Expr) -> Result<Expr, AllocError>
    requires { is_in_between_or_like expr.now ≡ true }
    ensures ok { IfOk result (λ copy. copy ≡ expr.now) }
{
    match expr {
        Expr::Among {
            arg,
            members,
            negated,
        } => Ok(Expr::Among {
            arg: copy_boxed(alloc, arg.get())?,
            members: copy_all(alloc, members.as_slice())?,
            negated: *negated,
        }),
        Expr::Between {
            arg,
            low,
            high,
            negated,
        } => Ok(Expr::Between {
            arg: copy_boxed(alloc, arg.get())?,
            low: copy_boxed(alloc, low.get())?,
            high: copy_boxed(alloc, high.get())?,
            negated: *negated,
        }),
        Expr::Like {
            arg,
            pattern,
            negated,
        } => Ok(Expr::Like {
            arg: copy_boxed(alloc, arg.get())?,
            pattern: pattern.copy()?,
            negated: *negated,
        }),
        _ => unreachable!(),
    }
}

// The same, in a box.
#[cycle(copying)]
fn copy_boxed(alloc: Global, expr: &Expr) -> Result<Boxed<Expr>, AllocError>
    ensures ok { IfOk result (λ copy. copy ≡ expr.now) }
{
    Boxed::new(alloc, copy_expr(alloc, expr)?)
}

// The same of several expressions.
#[cycle(copying)]
pub(crate) fn copy_all(alloc: Global, exprs: &[Expr]) -> Result<Items<Expr>, AllocError>
    ensures ok { IfOk result (λ copies. copies ≡ exprs.now) }
{
    let mut copies = Items::new(alloc);
    for expr in exprs {
        copies.push(copy_expr(alloc, expr)?)?;
    }
    Ok(copies)
}

// The same of the members of a sum.
#[cycle(copying)]
fn copy_addends(alloc: Global, addends: &[Addend]) -> Result<Items<Addend>, AllocError>
    ensures ok { IfOk result (λ copies. copies ≡ addends.now) }
{
    let mut copies = Items::new(alloc);
    for addend in addends {
        copies.push(Addend {
            minus: addend.minus,
            expr: copy_expr(alloc, &addend.expr)?,
        })?;
    }
    Ok(copies)
}
