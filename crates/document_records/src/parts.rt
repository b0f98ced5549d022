ghost use Rattle.std.specs.Prelude.{◌≡◌, ◌+◌, ◌≤◌, [], ◌∷◌, ◌++◌, List, length, IfOk, OnOk, OnErr};
ghost use Rattle.doc_values.specs.Lent.{owned};
ghost use Rattle.doc_values.specs.Value.{IsStorable};
ghost use Rattle.reservoir_record.specs.Spelling.{AreFields};
ghost use Rattle.reservoir_record.specs.declared.fields.Field.{Field};
ghost use Rattle.document_records.specs.StoredValue.{bytes_of};
ghost use Rattle.document_records.specs.Limits.{most_weight};

use crate::record::Record;
use crate::stored_value::push_value;
use doc_values::ValueRef;
use reservoir_record::parts_of_one_more;
use std::alloc::{AllocError, Global};

/// The numbers, ends and values of a record's fields. Their memory is used again after `clear`.
#[derive(Drop)]
pub struct Parts {
    ids: Vec<u32>,
    ends: Vec<u32>,
    values: Vec<u8>,
}

impl Parts {
    ghost use Rattle.document_records.specs.Parts.{AreIn};

    /// No fields.
    pub fn new(alloc: Global) -> Parts
        ensures exact { AreIn [] result }
    {
        Parts {
            ids: Vec::new(alloc),
            ends: Vec::new(alloc),
            values: Vec::new(alloc),
        }
    }

    /// Takes all fields away.
    pub fn clear(&mut self)
        ensures exact { AreIn [] self.new }
    {
        self.ids.clear();
        self.ends.clear();
        self.values.clear();
    }

    /// Puts a field behind the others.
    pub fn push(&mut self, id: u32, value: ValueRef<'_>) -> Result<(), AllocError>
        requires storable { IsStorable (owned value) }
        requires room { length self.old.values.items + length (bytes_of (owned value)) ≤ most_weight }
        ensures ok { OnOk result ((fields : List Field) → AreIn fields self.old → AreIn (fields ++ record { id = id; bytes = bytes_of (owned value.entry) } ∷ []) self.new) }
        ensures memory { OnErr result ((self.new.ids.items ≡ self.old.ids.items) × (self.new.ends.items ≡ self.old.ends.items) × (self.new.values.items ≡ self.old.values.items)) }
    {
        parts_of_one_more();
        let before = self.values.len();
        push_value(&mut self.values, value)?;
        let end = self.values.len() as u32;
        match push_number(&mut self.ids, &mut self.ends, id, end) {
            Ok(()) => Ok(()),
            Err(fault) => {
                self.values.truncate(before);
                Err(fault)
            }
        }
    }

    /// The record of the fields.
    pub fn record(&self, alloc: Global) -> Result<Record, AllocError>
        requires { (fields : List Field) × (AreFields fields × AreIn fields self.now) }
        ensures ok { (fields : List Field) → AreIn fields self.now → IfOk result (λ made. made ≡ fields) }
    {
        Record::from_parts(alloc, &self.ids, &self.ends, &self.values)
    }
}

// Puts a number and an end behind the others, or neither.
fn push_number(ids: &mut Vec<u32>, ends: &mut Vec<u32>, id: u32, end: u32) -> Result<(), AllocError>
    ensures ok { OnOk result ((ids.new.items ≡ ids.old.items ++ id ∷ []) × (ends.new.items ≡ ends.old.items ++ end ∷ [])) }
    ensures memory { OnErr result ((ids.new.items ≡ ids.old.items) × (ends.new.items ≡ ends.old.items)) }
{
    ids.push(id)?;
    if let Err(fault) = ends.push(end) {
        ids.pop();
        return Err(fault.into());
    }
    Ok(())
}
