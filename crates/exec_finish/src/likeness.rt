ghost use Rattle.std.specs.Prelude.{◌≡◌, All, map, option_copied};
ghost use Rattle.std.specs.Ordering.{eq_by_cmp};
ghost use Rattle.std.specs.Option.{option_eq};
ghost use Rattle.std.specs.Cmp.Lexicographic.{pointwise};
ghost use Rattle.doc_values.specs.Order.{total_order};
ghost use Rattle.sql_eval.specs.Resolved.{value_over};
ghost use Rattle.sql_eval.specs.Widths.{CanEvaluate};
ghost use Rattle.exec_finish.specs.Distinct.{is_same_field};

use crate::lent_order::order;
use doc_values::{Doc, Value};
use sql_eval::{Expr, Sides, ValueRef, value};

/// Whether items over a tuple and others over another have the same values.
pub(crate) fn have_same_items<'a>(
    items: &'a [Expr],
    tuple: &Sides<'a>,
    others: &'a [Expr],
    other: &Sides<'a>,
) -> bool
    requires items { All (CanEvaluate tuple.now) items.now }
    requires others { All (CanEvaluate other.now) others.now }
    ensures exact { result ≡ pointwise (eq_by_cmp total_order) (map (value_over tuple.now) items.now) (map (value_over other.now) others.now) }
{
    if items.len() != others.len() {
        return false;
    }
    for (item, one) in items.iter().zip(others) {
        if order(value(item, tuple), value(one, other)).is_ne() {
            return false;
        }
    }
    true
}

/// Whether two documents are the same; so they are where there is none.
pub(crate) fn have_same_document(doc: Option<&Doc>, other: Option<&Doc>) -> bool
    ensures exact { result ≡ option_eq (pointwise is_same_field) (option_copied doc.entry) (option_copied other.entry) }
{
    match (doc, other) {
        (None, None) => true,
        (Some(doc), Some(other)) => have_same_fields(doc, other),
        _ => false,
    }
}

fn have_same_fields(doc: &Doc, other: &Doc) -> bool
    ensures exact { result ≡ pointwise is_same_field doc.now other.now }
{
    if doc.len() != other.len() {
        return false;
    }
    for place in 0..doc.len() {
        if !is_same_field(doc.field(place), other.field(place)) {
            return false;
        }
    }
    true
}

fn is_same_field(field: (&str, &Value), other: (&str, &Value)) -> bool
    ensures exact { result ≡ is_same_field (field.entry.0.now, field.entry.1.now) (other.entry.0.now, other.entry.1.now) }
{
    field.0 == other.0 && order(Some(ValueRef::of(field.1)), Some(ValueRef::of(other.1))).is_eq()
}
