ghost use Rattle.std.specs.Prelude.{◌≡◌, ◌↔◌, IsSome, option_copied};
ghost use Rattle.doc_values.specs.Value.{kind_of};
ghost use Rattle.doc_values.specs.Order.{compared, total_order};

use crate::value::Value;
use std::cmp::Ordering;

/// How two values of one kind compare.
pub fn compare(a: &Value, b: &Value) -> Option<Ordering>
    ensures exact { result ≡ compared a.now b.now }
    ensures kinds { IsSome result ↔ (kind_of a.now ≡ kind_of b.now) }
{
    match (a, b) {
        (Value::Bool(a), Value::Bool(b)) => Some(a.cmp(b)),
        (Value::Int(a), Value::Int(b)) => Some(a.cmp(b)),
        (Value::Text(a), Value::Text(b)) => Some(a.text().cmp(b.text())),
        (Value::Array(a), Value::Array(b)) => Some(a.text().cmp(b.text())),
        (Value::Object, Value::Object) => Some(Ordering::Equal),
        _ => None,
    }
}

/// How any two values compare: by their kinds first, and a missing one comes last.
pub fn order(a: Option<&Value>, b: Option<&Value>) -> Ordering
    ensures exact { result ≡ total_order (option_copied a.entry) (option_copied b.entry) }
{
    match (a, b) {
        (None, None) => Ordering::Equal,
        (None, Some(_)) => Ordering::Greater,
        (Some(_), None) => Ordering::Less,
        (Some(a), Some(b)) => match compare(a, b) {
            Some(ordering) => ordering,
            None => a.kind().cmp(&b.kind()),
        },
    }
}
