ghost use Rattle.std.specs.Prelude.{◌≡◌, ◌≤◌, length, true, map, sum, option_map, IfSome};
ghost use Rattle.sql_eval.specs.Truth.{any_of, all_of, truth_of};
ghost use Rattle.sql_eval.specs.Operators.{number_of, sum_of, product_of, comparison};
ghost use Rattle.row_columns.specs.Lent.{owned};
ghost use Rattle.sql_eval.specs.Resolved.{value_over, added_over};
ghost use Rattle.sql_eval.specs.Widths.{width_of, width_in, are_narrow, addends_are_narrow, bits_of, sum_bits, IsStorableTuple};
ghost use Rattle.sql_eval.specs.Within.{IsWithin, IsNumberWithin};
ghost use Rattle.doc_values.specs.declared.value_ref.ValueRef as value_ref;

use crate::addend::Addend;
use crate::arithmetic::{negative, plus, times};
use crate::expr::Expr;
use crate::operators::{comparison, likeness, nullness};
use crate::truth_value::Truth;
use doc_values::CompareOp;
use row_columns::{Sides, ValueRef};

// The value of an expression over a tuple, lent; none is NULL.
#[cycle(lending)]
pub fn value<'a>(expr: &'a Expr, tuple: &Sides<'a>) -> Option<ValueRef<'a>>
    requires narrow { (width_of (length tuple.now) expr.now).narrow ≡ true }
    requires stored { IsStorableTuple tuple.now }
    ensures exact { option_map owned result ≡ value_over tuple.now expr.now }
    ensures within { IfSome result (IsWithin (width_of (length tuple.now) expr.now).bits) }
{
    match expr {
        Expr::Number(n) => Some(ValueRef::Int(i128::from(*n))),
        Expr::Text(text) => Some(ValueRef::Text(text.text())),
        Expr::Bool(b) => Some(ValueRef::Bool(*b)),
        Expr::Column(slot) => tuple.cell(slot.table, slot.column),
        Expr::Wanted { column, .. } => tuple.cell(column.table, column.column),
        Expr::Sum(addends) => Some(ValueRef::Int(sum(addends.as_slice(), tuple)?)),
        Expr::Product(members) => Some(ValueRef::Int(product(members.as_slice(), tuple)?)),
        Expr::Minus(arg) => Some(ValueRef::Int(negative(number(arg.get(), tuple)?))),
        Expr::Or(_)
        | Expr::And(_)
        | Expr::Not(_)
        | Expr::Compare { .. }
        | Expr::IsNull { .. }
        | Expr::Among { .. }
        | Expr::Between { .. }
        | Expr::Like { .. } => truth_over(expr, tuple).value(),
        Expr::Null | Expr::AnyOf { .. } | Expr::CountAll | Expr::Aggregate { .. } => None,
    }
}

// The truth of an expression over a tuple.
#[cycle(lending)]
pub(crate) fn truth_over<'a>(expr: &'a Expr, tuple: &Sides<'a>) -> Truth
    requires narrow { (width_of (length tuple.now) expr.now).narrow ≡ true }
    requires stored { IsStorableTuple tuple.now }
    ensures exact { result ≡ truth_of (value_over tuple.now expr.now) }
{
    match expr {
        Expr::Bool(b) => Truth::of(Some(*b)),
        Expr::Column(slot) => Truth::of_value(tuple.cell(slot.table, slot.column)),
        Expr::Wanted { column, .. } => Truth::of_value(tuple.cell(column.table, column.column)),
        Expr::Or(members) => any(members.as_slice(), tuple),
        Expr::And(members) => all(members.as_slice(), tuple),
        Expr::Not(arg) => truth_over(arg.get(), tuple).not(),
        Expr::Compare { op, left, right } => {
            comparison(*op, value(left.get(), tuple), value(right.get(), tuple))
        }
        Expr::IsNull { arg, negated } => nullness(value(arg.get(), tuple), *negated),
        Expr::Among {
            arg,
            members,
            negated,
        } => among(value(arg.get(), tuple), members.as_slice(), tuple).unless(*negated),
        Expr::Between {
            arg,
            low,
            high,
            negated,
        } => {
            let arg = value(arg.get(), tuple);
            let above = comparison(CompareOp::Ge, arg, value(low.get(), tuple));
            let below = comparison(CompareOp::Le, arg, value(high.get(), tuple));
            above.and(below).unless(*negated)
        }
        Expr::Like {
            arg,
            pattern,
            negated,
        } => likeness(value(arg.get(), tuple), pattern.text()).unless(*negated),
        _ => Truth::Unknown,
    }
}

// OR of the members.
#[cycle(lending)]
fn any<'a>(members: &'a [Expr], tuple: &Sides<'a>) -> Truth
    requires narrow { are_narrow (length tuple.now) members.now ≡ true }
    requires stored { IsStorableTuple tuple.now }
    ensures exact { result ≡ any_of (map truth_of (map (value_over tuple.now) members.now)) }
{
    let mut truth = Truth::False;
    for member in members {
        truth = truth.or(truth_over(member, tuple));
        if let Truth::True = truth {
            return truth;
        }
    }
    truth
}

// AND of the members.
#[cycle(lending)]
fn all<'a>(members: &'a [Expr], tuple: &Sides<'a>) -> Truth
    requires narrow { are_narrow (length tuple.now) members.now ≡ true }
    requires stored { IsStorableTuple tuple.now }
    ensures exact { result ≡ all_of (map truth_of (map (value_over tuple.now) members.now)) }
{
    let mut truth = Truth::True;
    for member in members {
        truth = truth.and(truth_over(member, tuple));
        if let Truth::False = truth {
            return truth;
        }
    }
    truth
}

// Whether a value equals one of the members.
#[cycle(lending)]
fn among<'a>(arg: Option<ValueRef<'a>>, members: &'a [Expr], tuple: &Sides<'a>) -> Truth
    requires narrow { are_narrow (length tuple.now) members.now ≡ true }
    requires stored { IsStorableTuple tuple.now }
    ensures exact { result ≡ any_of (map (comparison CompareOp.Eq (option_map owned arg.entry)) (map (value_over tuple.now) members.now)) }
{
    let mut truth = Truth::False;
    for member in members {
        truth = truth.or(comparison(CompareOp::Eq, arg, value(member, tuple)));
        if let Truth::True = truth {
            return truth;
        }
    }
    truth
}

// The number that an expression gives, if it gives one.
#[cycle(lending)]
fn number<'a>(expr: &'a Expr, tuple: &Sides<'a>) -> Option<i128>
    requires narrow { (width_of (length tuple.now) expr.now).narrow ≡ true }
    requires stored { IsStorableTuple tuple.now }
    ensures exact { result ≡ number_of (value_over tuple.now expr.now) }
    ensures within { IfSome result (IsNumberWithin (width_of (length tuple.now) expr.now).bits) }
{
    match value(expr, tuple) {
        Some(ValueRef::Int(n)) => Some(n),
        _ => None,
    }
}

// The sum of the members, if each is a number.
#[cycle(lending)]
fn sum<'a>(addends: &'a [Addend], tuple: &Sides<'a>) -> Option<i128>
    requires narrow { addends_are_narrow (length tuple.now) addends.now ≡ true }
    requires few { sum_bits (bits_of (map (width_in (length tuple.now)) addends.now)) ≤ 126 }
    requires stored { IsStorableTuple tuple.now }
    ensures exact { result ≡ sum_of (map (added_over tuple.now) addends.now) }
    ensures within { IfSome result (IsNumberWithin (sum_bits (bits_of (map (width_in (length tuple.now)) addends.now)))) }
{
    let mut total = 0;
    for addend in addends {
        total = plus(total, addend.minus, number(&addend.expr, tuple)?);
    }
    Some(total)
}

// The product of the members, if each is a number.
#[cycle(lending)]
fn product<'a>(members: &'a [Expr], tuple: &Sides<'a>) -> Option<i128>
    requires narrow { are_narrow (length tuple.now) members.now ≡ true }
    requires few { sum (bits_of (map (width_of (length tuple.now)) members.now)) ≤ 126 }
    requires stored { IsStorableTuple tuple.now }
    ensures exact { result ≡ product_of (map number_of (map (value_over tuple.now) members.now)) }
    ensures within { IfSome result (IsNumberWithin (sum (bits_of (map (width_of (length tuple.now)) members.now)))) }
{
    let mut total = 1;
    for member in members {
        total = times(total, number(member, tuple)?);
    }
    Some(total)
}
