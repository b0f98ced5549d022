ghost use Rattle.std.specs.Prelude.{◌≡◌, ◌<◌, ◌≤◌, ◌+◌, List, Some, None, length, slice_get, option_map, IfOk, OnOk, OnErr, option_copied};
ghost use Rattle.reservoir_record.specs.Spelling.{AreFields, ArePartsOf, IsRecord, Spells, values};
ghost use Rattle.reservoir_record.specs.Editing.{with_field, without_field};
ghost use Rattle.reservoir_record.specs.Finding.{value_of};
ghost use Rattle.reservoir_record.specs.declared.fields.Field.{Field};

use reservoir_record::{
    Steps, a_spelling_has_its_fields_in_place, build_from_parts, count, field, find, find_near,
    put, remove,
};
use std::alloc::{AllocError, Global};
use std::marker::{Brand, Model};
use std::sync::ledger::{Blank, Ledger};

/// A record in memory of its own, seen as its fields.
#[derive(Drop)]
pub struct Record {
    bytes: Vec<u8>,
}

impl Model for Record {
    ghost use Rattle.std.specs.Prelude.{List};
    ghost use Rattle.reservoir_record.specs.declared.fields.Field.{Field};
    ghost use Rattle.reservoir_record.specs.Spelling.{Spells};
    ghost use Rattle.reservoir_record.specs.Walking.{fields_in};

    ghost Value = { List Field };

    ghost view = { λ r. fields_in r.bytes.items };

    ghost invariant = { λ r. Spells (fields_in r.bytes.items) r.bytes.items };
}

impl Record {
    /// The record of fields whose parts lie apart.
    pub(crate) fn from_parts(
        alloc: Global,
        ids: &[u32],
        ends: &[u32],
        values: &[u8],
    ) -> Result<Record, AllocError>
        requires { (fields : List Field) × (AreFields fields × ArePartsOf fields ids.now ends.now values.now) }
        ensures ok { (fields : List Field) → ArePartsOf fields ids.now ends.now values.now → IfOk result (λ r. r ≡ fields) }
    {
        a_spelling_has_its_fields_in_place();
        let bytes = build_from_parts(alloc, ids, ends, values)?;
        Ok(Record { bytes })
    }

    /// The value of the field with a number.
    pub fn find(&self, id: u32) -> Option<&[u8]>
        ensures exact { option_copied result ≡ value_of id self.now }
    {
        find_with::<Brand>(&self.bytes, id, Blank::new(1))
    }

    /// The value of the field with a number, and the place of the field. It is looked for at a guessed place first.
    pub fn find_near(&self, id: u32, guess: u32) -> Option<(u32, &[u8])>
        ensures exact { option_map (λ found. found.1.now) result ≡ value_of id self.now }
    {
        find_near_with::<Brand>(&self.bytes, id, guess, Blank::new(1))
    }

    /// How many fields there are.
    pub fn len(&self) -> u32
        ensures exact { result ≡ length self.now }
        ensures kept { AreFields self.now }
    {
        count(&self.bytes)
    }

    /// The number of the field at a place.
    pub fn id(&self, place: u32) -> u32
        requires { place < length self.now }
        ensures exact { option_map (λ f. f.id) (slice_get self.now place) ≡ Some result }
    {
        a_spelling_has_its_fields_in_place();
        field(&self.bytes, place).0
    }

    /// The bytes of the field at a place.
    pub fn bytes(&self, place: u32) -> &[u8]
        requires { place < length self.now }
        ensures exact { option_map (λ f. f.bytes) (slice_get self.now place) ≡ Some result.now }
    {
        a_spelling_has_its_fields_in_place();
        field(&self.bytes, place).1
    }

    /// Puts in a field whose number the record does not have.
    pub fn put(&mut self, id: u32, value: &[u8]) -> Result<(), AllocError>
        requires small { id < 65536 }
        requires absent { value_of id self.old ≡ None }
        requires fit { length (values self.old) + length value.now ≤ 16777216 }
        ensures ok { OnOk result (self.new ≡ with_field id value.now self.old) }
        ensures memory { OnErr result (self.new ≡ self.old) }
    {
        a_spelling_has_its_fields_in_place();
        put(&mut self.bytes, id, value)?;
        Ok(())
    }

    /// Takes out the field with a number, if there is one. Nothing is allocated.
    pub fn remove(&mut self, id: u32)
        ensures exact { self.new ≡ without_field id self.old }
    {
        a_spelling_has_its_fields_in_place();
        remove(&mut self.bytes, id);
    }
}

fn find_with<'a, L: Ledger>(bytes: &'a [u8], id: u32, blank: Blank) -> Option<&'a [u8]>
    requires name { blank.name ≡ L.name }
    requires parts { blank.parts ≡ L.parts }
    requires some { blank.parts ≡ 1 }
    requires record_bytes { IsRecord bytes.now }
    ensures exact { (fields : List Field) → Spells fields bytes.now → option_copied result ≡ value_of id fields }
{
    let mut steps = Steps::<L>::new(blank);
    find(bytes, id, &mut steps)
}

fn find_near_with<'a, L: Ledger>(
    bytes: &'a [u8],
    id: u32,
    guess: u32,
    blank: Blank,
) -> Option<(u32, &'a [u8])>
    requires name { blank.name ≡ L.name }
    requires parts { blank.parts ≡ L.parts }
    requires some { blank.parts ≡ 1 }
    requires record_bytes { IsRecord bytes.now }
    ensures exact { (fields : List Field) → Spells fields bytes.now → option_map (λ found. found.1.now) result ≡ value_of id fields }
{
    let mut steps = Steps::<L>::new(blank);
    find_near(bytes, id, guess, &mut steps)
}
