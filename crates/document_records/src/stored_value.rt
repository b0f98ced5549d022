ghost use Rattle.std.specs.Prelude.{◌≡◌, ◌++◌, IfOk, OnOk, OnErr, IsTrue, length};
ghost use Rattle.std.specs.Int.{w64, cast_signed, from_le_bytes};
ghost use Rattle.std.specs.Str.{is_utf8};
ghost use Rattle.doc_values.specs.Value.{kind_of, IsStorable};
ghost use Rattle.doc_values.specs.Lent.{owned};
ghost use Rattle.document_records.specs.StoredValue.{bytes_of, value_in, AreReadable, ReadsBack, AreToldApart};

use doc_values::{Kind, Utf, Value, ValueRef};
use std::alloc::{AllocError, Global};

/// Puts the bytes of a value behind those that are there.
pub fn push_value(bytes: &mut Vec<u8>, value: ValueRef<'_>) -> Result<(), AllocError>
    requires { IsStorable (owned value) }
    ensures ok { OnOk result (bytes.new.items ≡ bytes.old.items ++ bytes_of (owned value.entry)) }
    ensures memory { OnErr result (bytes.new.items ≡ bytes.old.items) }
{
    match value {
        ValueRef::Bool(b) => bytes.push(u8::from(b))?,
        ValueRef::Int(n) => bytes.extend_from_slice(&(n as i64).to_le_bytes())?,
        ValueRef::Text(text) => bytes.extend_from_slice(text.as_bytes())?,
        ValueRef::Array(array) => bytes.extend_from_slice(array.as_bytes())?,
        ValueRef::Object => {}
    }
    Ok(())
}

/// The kind of a value, at which its bytes can be read.
pub fn kind_stored(value: ValueRef<'_>) -> Kind
    ensures exact { result ≡ kind_of (owned value.entry) }
    ensures readable { AreReadable result (bytes_of (owned value.entry)) }
{
    match value {
        ValueRef::Bool(_) => Kind::Bool,
        ValueRef::Int(_) => Kind::Int,
        ValueRef::Text(text) => {
            is_text(text);
            Kind::Text
        }
        ValueRef::Array(text) => {
            is_text(text);
            Kind::Array
        }
        ValueRef::Object => Kind::Object,
    }
}

// What a text holds is UTF-8.
fn is_text(text: &str)
    ensures exact { IsTrue (is_utf8 text.now) }
{
    let _len = text.len();
}

/// The value of a kind that bytes stand for.
pub fn read_value(alloc: Global, kind: Kind, bytes: &[u8]) -> Result<Value, AllocError>
    requires { AreReadable kind bytes.now }
    ensures ok { IfOk result (λ value. value ≡ value_in kind bytes.now) }
    ensures storable { IfOk result IsStorable }
{
    match kind {
        Kind::Bool => Ok(Value::Bool(bytes[0] == 1)),
        Kind::Int => Ok(Value::Int(read_int(bytes))),
        Kind::Text => Ok(Value::Text(read_text(alloc, bytes)?)),
        Kind::Array => Ok(Value::Array(read_text(alloc, bytes)?)),
        Kind::Object => Ok(Value::Object),
    }
}

fn read_int(bytes: &[u8]) -> i128
    requires { length bytes.now ≡ 8 }
    ensures exact { result ≡ cast_signed w64 (from_le_bytes w64 bytes.now) }
{
    let mut word = [0u8; 8];
    word.copy_from_slice(bytes);
    i128::from(i64::from_le_bytes(word))
}

fn read_text(alloc: Global, bytes: &[u8]) -> Result<Utf, AllocError>
    requires { IsTrue (is_utf8 bytes.now) }
    ensures ok { IfOk result (λ text. text ≡ bytes.now) }
{
    Utf::of(alloc, text_of(bytes))
}

// The text that bytes are. They are known to be one, so they are not looked at.
fn text_of(bytes: &[u8]) -> &str
    requires { IsTrue (is_utf8 bytes.now) }
    ensures exact { result.now ≡ bytes.now }
{
    unsafe { str::from_utf8_unchecked(bytes) }
}

/// The value of a kind that bytes stand for, lent from them.
pub fn read_lent(kind: Kind, bytes: &[u8]) -> ValueRef<'_>
    requires { AreReadable kind bytes.now }
    ensures exact { owned result ≡ value_in kind bytes.now }
{
    match kind {
        Kind::Bool => ValueRef::Bool(bytes[0] == 1),
        Kind::Int => ValueRef::Int(read_int(bytes)),
        Kind::Text => ValueRef::Text(text_of(bytes)),
        Kind::Array => ValueRef::Array(text_of(bytes)),
        Kind::Object => ValueRef::Object,
    }
}

/// A value that a document may hold is what its bytes stand for at its kind, and bytes tell two such values of one kind
/// apart.
pub fn stored_values_are_told_apart()
    ensures back { ReadsBack }
    ensures apart { AreToldApart }
{}
