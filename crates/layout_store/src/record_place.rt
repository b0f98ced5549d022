ghost use Rattle.std.specs.Prelude.{◌≡◌, ◌+◌, ◌<◌, ◌≤◌, [], ◌∷◌, Some, None, length, slice_get, option_map, option_copied, IfOk, OnOk, OnErr};
ghost use Rattle.doc_values.specs.Lent.{owned};
ghost use Rattle.doc_values.specs.Value.{IsStorable};
ghost use Rattle.reservoir_record.specs.Editing.{with_field, without_field};
ghost use Rattle.reservoir_record.specs.Finding.{value_of};
ghost use Rattle.reservoir_record.specs.Spelling.{AreFields, values};
ghost use Rattle.document_records.specs.StoredValue.{bytes_of};

use doc_values::ValueRef;
use document_records::{Parts, Record};
use std::alloc::{AllocError, Global};
use std::marker::Model;

/// What is kept of a version: its record, or nothing once the version is given up. It is seen as fields.
#[derive(Drop)]
pub(crate) struct RecordPlace {
    stored: Option<Record>,
}

impl Model for RecordPlace {
    ghost use Rattle.std.specs.Prelude.{List, [], unwrap_or};
    ghost use Rattle.reservoir_record.specs.declared.fields.Field.{Field};

    ghost Value = { List Field };

    ghost view = { λ p. unwrap_or p.stored [] };
}

impl RecordPlace {
    pub(crate) fn of(stored: Record) -> RecordPlace
        ensures exact { result ≡ stored }
    {
        RecordPlace {
            stored: Some(stored),
        }
    }

    /// The value of the field with a number.
    pub(crate) fn find(&self, id: u32) -> Option<&[u8]>
        ensures exact { option_copied result ≡ value_of id self.now }
    {
        match &self.stored {
            Some(stored) => stored.find(id),
            None => None,
        }
    }

    /// How many fields there are.
    pub(crate) fn len(&self) -> u32
        ensures exact { result ≡ length self.now }
        ensures kept { AreFields self.now }
    {
        match &self.stored {
            Some(stored) => stored.len(),
            None => 0,
        }
    }

    /// The number of the field at a place.
    pub(crate) fn id(&self, place: u32) -> u32
        requires { place < length self.now }
        ensures exact { option_map (λ f. f.id) (slice_get self.now place) ≡ Some result }
    {
        match &self.stored {
            Some(stored) => stored.id(place),
            None => 0,
        }
    }

    /// The bytes of the field at a place.
    pub(crate) fn bytes(&self, place: u32) -> &[u8]
        requires { place < length self.now }
        ensures exact { option_map (λ f. f.bytes) (slice_get self.now place) ≡ Some result.now }
    {
        match &self.stored {
            Some(stored) => stored.bytes(place),
            None => &[],
        }
    }

    /// Puts in a value under a number that has none.
    pub(crate) fn put(
        &mut self,
        alloc: Global,
        id: u32,
        value: ValueRef<'_>,
    ) -> Result<(), AllocError>
        requires small { id < 65536 }
        requires storable { IsStorable (owned value) }
        requires absent { value_of id self.old ≡ None }
        requires fit { length (values self.old) + length (bytes_of (owned value)) ≤ 16777216 }
        ensures ok { OnOk result (self.new ≡ with_field id (bytes_of (owned value.entry)) self.old) }
        ensures memory { OnErr result (self.new ≡ self.old) }
    {
        match &mut self.stored {
            Some(stored) => put_value(stored, id, value),
            None => {
                self.stored = Some(record_of_one(alloc, id, value)?);
                Ok(())
            }
        }
    }

    /// Takes out the field with a number, if there is one. Nothing is allocated.
    pub(crate) fn remove(&mut self, id: u32)
        ensures exact { self.new ≡ without_field id self.old }
    {
        if let Some(stored) = &mut self.stored {
            stored.remove(id);
        }
    }

    /// Gives the record up, and its memory back.
    pub(crate) fn clear(&mut self)
        ensures exact { self.new ≡ [] }
    {
        self.stored = None;
    }
}

// The record of one field.
fn record_of_one(alloc: Global, id: u32, value: ValueRef<'_>) -> Result<Record, AllocError>
    requires small { id < 65536 }
    requires storable { IsStorable (owned value) }
    requires fit { length (bytes_of (owned value)) ≤ 16777216 }
    ensures ok { IfOk result (λ fields. fields ≡ record { id = id; bytes = bytes_of (owned value.entry) } ∷ []) }
{
    let mut parts = Parts::new(alloc);
    parts.push(id, value)?;
    parts.record(alloc)
}

// Puts a value in a record.
fn put_value(stored: &mut Record, id: u32, value: ValueRef<'_>) -> Result<(), AllocError>
    requires small { id < 65536 }
    requires storable { IsStorable (owned value) }
    requires absent { value_of id stored.old ≡ None }
    requires fit { length (values stored.old) + length (bytes_of (owned value)) ≤ 16777216 }
    ensures ok { OnOk result (stored.new ≡ with_field id (bytes_of (owned value.entry)) stored.old) }
    ensures memory { OnErr result (stored.new ≡ stored.old) }
{
    match value {
        ValueRef::Bool(b) => stored.put(id, &[u8::from(b)])?,
        ValueRef::Int(n) => stored.put(id, &(n as i64).to_le_bytes())?,
        ValueRef::Text(text) => stored.put(id, text.as_bytes())?,
        ValueRef::Array(text) => stored.put(id, text.as_bytes())?,
        ValueRef::Object => stored.put(id, &[])?,
    }
    Ok(())
}
