ghost use Rattle.std.specs.Prelude.{◌≡◌, option_map};
ghost use Rattle.doc_values.specs.Order.{compared};
ghost use Rattle.sql_eval.specs.Operators.{comparison, likeness, nullness};
ghost use Rattle.sql_eval.specs.Truth.{truth_of};
ghost use Rattle.row_columns.specs.Lent.{owned};

use crate::pattern::like;
use crate::truth_value::Truth;
use doc_values::CompareOp;
use row_columns::ValueRef;
use std::cmp::Ordering;

// A comparison, unknown where a side is NULL or the kinds differ.
pub(crate) fn comparison(op: CompareOp, left: Option<ValueRef>, right: Option<ValueRef>) -> Truth
    ensures exact { result ≡ comparison op (option_map owned left.entry) (option_map owned right.entry) }
{
    match (left, right) {
        (Some(left), Some(right)) => match compare(left, right) {
            Some(ordering) => Truth::of(Some(op.admits(ordering))),
            None => Truth::Unknown,
        },
        (None, _) | (_, None) => Truth::Unknown,
    }
}

// How two values of one kind compare.
fn compare(left: ValueRef, right: ValueRef) -> Option<Ordering>
    ensures exact { result ≡ compared (owned left.entry) (owned right.entry) }
{
    match (left, right) {
        (ValueRef::Bool(left), ValueRef::Bool(right)) => Some(left.cmp(&right)),
        (ValueRef::Int(left), ValueRef::Int(right)) => Some(left.cmp(&right)),
        (ValueRef::Text(left), ValueRef::Text(right)) => Some(left.cmp(right)),
        (ValueRef::Array(left), ValueRef::Array(right)) => Some(left.cmp(right)),
        (ValueRef::Object, ValueRef::Object) => Some(Ordering::Equal),
        _ => None,
    }
}

// LIKE, unknown on NULL.
pub(crate) fn likeness(value: Option<ValueRef>, pattern: &str) -> Truth
    ensures exact { result ≡ likeness (option_map owned value.entry) pattern.now }
{
    match value {
        Some(ValueRef::Text(text)) => Truth::of(Some(like(text, pattern))),
        _ => Truth::Unknown,
    }
}

// IS NULL, or IS NOT NULL.
pub(crate) fn nullness(value: Option<ValueRef>, negated: bool) -> Truth
    ensures exact { result ≡ truth_of (nullness negated (option_map owned value.entry)) }
{
    Truth::of(Some(value.is_none() != negated))
}
