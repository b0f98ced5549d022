ghost use Rattle.std.specs.Prelude.{◌≡◌, IfOk, length, true};
ghost use Rattle.sql_eval.specs.Truth.{truth_of};
ghost use Rattle.sql_eval.specs.Resolved.{value_over};
ghost use Rattle.sql_eval.specs.Widths.{width_of, is_plain, IsStorableTuple};

use crate::expr::Expr;
use crate::lending::{truth_over, value};
use crate::truth_value::Truth;
use doc_values::Value;
use row_columns::Sides;
use std::alloc::{AllocError, Global};

/// The value of an expression over a tuple; none is NULL. Numbers and truth values take no memory.
pub fn eval<'a>(
    alloc: Global,
    expr: &'a Expr,
    tuple: &Sides<'a>,
) -> Result<Option<Value>, AllocError>
    requires plain { is_plain expr.now ≡ true }
    requires narrow { (width_of (length tuple.now) expr.now).narrow ≡ true }
    requires stored { IsStorableTuple tuple.now }
    ensures ok { IfOk result (λ value. value ≡ value_over tuple.now expr.now) }
{
    match value(expr, tuple) {
        Some(value) => Ok(Some(value.to_value(alloc)?)),
        None => Ok(None),
    }
}

/// The truth of an expression over a tuple.
pub fn truth<'a>(expr: &'a Expr, tuple: &Sides<'a>) -> Truth
    requires plain { is_plain expr.now ≡ true }
    requires narrow { (width_of (length tuple.now) expr.now).narrow ≡ true }
    requires stored { IsStorableTuple tuple.now }
    ensures exact { result ≡ truth_of (value_over tuple.now expr.now) }
{
    truth_over(expr, tuple)
}
