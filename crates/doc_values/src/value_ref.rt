ghost use Rattle.std.specs.Prelude.{◌≡◌, IfOk};

use crate::utf::Utf;
use crate::value::Value;
use std::alloc::{AllocError, Global};

/// A value that is lent: its text is not copied.
#[derive(Clone, Copy)]
pub enum ValueRef<'a> {
    Bool(bool),
    Int(i128),
    Text(&'a str),
    Array(&'a str),
    Object,
}

impl<'a> ValueRef<'a> {
    ghost use Rattle.doc_values.specs.Lent.{owned};

    /// The value, lent.
    pub fn of(value: &'a Value) -> ValueRef<'a>
        ensures exact { owned result ≡ value.now }
    {
        match value {
            Value::Bool(b) => ValueRef::Bool(*b),
            Value::Int(n) => ValueRef::Int(*n),
            Value::Text(text) => ValueRef::Text(text.text()),
            Value::Array(text) => ValueRef::Array(text.text()),
            Value::Object => ValueRef::Object,
        }
    }

    /// A value of its own, with a copy of the text.
    pub fn to_value(self, alloc: Global) -> Result<Value, AllocError>
        ensures ok { IfOk result (λ value. value ≡ owned self.entry) }
    {
        match self {
            ValueRef::Bool(b) => Ok(Value::Bool(b)),
            ValueRef::Int(n) => Ok(Value::Int(n)),
            ValueRef::Text(text) => Ok(Value::Text(Utf::of(alloc, text)?)),
            ValueRef::Array(text) => Ok(Value::Array(Utf::of(alloc, text)?)),
            ValueRef::Object => Ok(Value::Object),
        }
    }
}
