ghost use Rattle.std.specs.Prelude.{◌≡◌, IfOk};

use crate::kind::Kind;
use crate::utf::Utf;
use std::alloc::AllocError;

/// A value of one of the five kinds. NULL is no value.
#[derive(Drop)]
pub enum Value {
    Bool(bool),
    /// A whole number. Documents hold those of 64 bits, signed; computed ones may be wider.
    Int(i128),
    Text(Utf),
    /// An array as its compact JSON text.
    Array(Utf),
    /// The empty object.
    Object,
}

impl Value {
    ghost use Rattle.doc_values.specs.Value.{kind_of};
    ghost use Rattle.doc_values.specs.Weight.{value_weight};

    pub fn kind(&self) -> Kind
        ensures exact { result ≡ kind_of self.now }
    {
        match self {
            Value::Bool(_) => Kind::Bool,
            Value::Int(_) => Kind::Int,
            Value::Text(_) => Kind::Text,
            Value::Array(_) => Kind::Array,
            Value::Object => Kind::Object,
        }
    }

    /// An equal value of its own.
    pub fn copy(&self) -> Result<Value, AllocError>
        ensures ok { IfOk result (λ v. v ≡ self.now) }
    {
        match self {
            Value::Bool(b) => Ok(Value::Bool(*b)),
            Value::Int(n) => Ok(Value::Int(*n)),
            Value::Text(s) => Ok(Value::Text(s.copy()?)),
            Value::Array(s) => Ok(Value::Array(s.copy()?)),
            Value::Object => Ok(Value::Object),
        }
    }

    /// What the value weighs, in bytes.
    pub fn weight(&self) -> u64
        ensures exact { result ≡ value_weight self.now }
    {
        match self {
            Value::Bool(_) => 1,
            Value::Int(_) => 8,
            Value::Text(text) | Value::Array(text) => text.text().len() as u64,
            Value::Object => 0,
        }
    }
}
