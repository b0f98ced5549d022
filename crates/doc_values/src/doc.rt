ghost use Rattle.std.specs.Prelude.{◌≡◌, ◌<◌, ℕ, List, [], IfOk, OnOk, OnErr, MatchResult, length, option_copied, slice_get, is_some, min, Some, ◌^◌, ◌-◌};
ghost use Rattle.std.specs.List.Sorted.{IsSearchInRange};
ghost use Rattle.doc_values.specs.Doc.{value_at, with_field, without_field, IsDocument};
ghost use Rattle.doc_values.specs.Value.{IsStorable};
ghost use Rattle.doc_values.specs.Weight.{weight_of};
ghost use Rattle.doc_values.specs.Place.{StandsAt, FitsAt};

use crate::utf::Utf;
use crate::value::Value;
use std::alloc::{AllocError, Global};
use std::marker::Model;

/// A document: names with their values, ascending by the bytes of the names.
#[derive(Drop)]
pub struct Doc {
    fields: Vec<(Utf, Value)>,
}

impl Model for Doc {
    ghost use Rattle.std.specs.Prelude.{ℕ, List};
    ghost use Rattle.doc_values.specs.declared.value.Value.{Value as ValueOf};
    ghost use Rattle.doc_values.specs.Doc.{Fields, IsDocument};

    ghost Value = { Fields };

    ghost view = { λ d. d.fields.items };

    ghost invariant = { λ d. IsDocument d.fields.items };
}

impl Doc {
    pub fn new(alloc: Global) -> Doc
        ensures exact { result ≡ [] }
    {
        Doc {
            fields: Vec::new(alloc),
        }
    }

    /// How many fields there are.
    pub fn len(&self) -> usize
        ensures exact { result ≡ length self.now }
        ensures kept { IsDocument self.now }
    {
        self.fields.len()
    }

    /// The value under a name.
    pub fn get(&self, name: &str) -> Option<&Value>
        ensures exact { option_copied result ≡ value_at name.now self.now }
    {
        match self.place(name) {
            Ok(place) => Some(&self.fields[place].1),
            Err(_) => None,
        }
    }

    /// Puts a value under a name, in place of the one that may stand there.
    pub fn set(&mut self, name: Utf, value: Value) -> Result<(), AllocError>
        requires { IsStorable value }
        ensures ok { OnOk result (self.new ≡ with_field self.old name value) }
        ensures memory { OnErr result (self.new ≡ self.old) }
        ensures kept { IsDocument self.new }
    {
        match self.place_to_set(name.text()) {
            Ok(place) => self.fields[place].1 = value,
            Err(place) => self.fields.insert(place, (name, value))?,
        }
        Ok(())
    }

    /// Takes a name with its value out, and answers whether it was there.
    pub fn remove(&mut self, name: &str) -> bool
        ensures exact { self.new ≡ without_field self.old name.now }
        ensures found { result ≡ is_some (value_at name.now self.old) }
        ensures kept { IsDocument self.new }
    {
        match self.place(name) {
            Ok(place) => {
                self.fields.remove(place);
                true
            }
            Err(_) => false,
        }
    }

    /// The field at a place, by the order of the names.
    pub fn field(&self, place: usize) -> (&str, &Value)
        requires { place < length self.now }
        ensures exact { slice_get self.now place ≡ Some (result.0.now, result.1.now) }
        ensures kept { IsDocument self.now }
    {
        let (name, value) = &self.fields[place];
        (name.text(), value)
    }

    /// An equal document of its own.
    pub fn copy(&self) -> Result<Doc, AllocError>
        ensures ok { IfOk result (λ d. d ≡ self.now) }
    {
        let mut fields = Vec::with_capacity(*self.fields.allocator(), self.fields.len())?;
        for (name, value) in &self.fields {
            fields.push((name.copy()?, value.copy()?))?;
        }
        Ok(Doc { fields })
    }

    /// What the values weigh together, in bytes, or the greatest number where they weigh more.
    pub fn weight(&self) -> u64
        ensures exact { result ≡ min (weight_of self.now) (2 ^ 64 - 1) }
    {
        let mut total = 0u64;
        for (_, value) in &self.fields {
            total = total.saturating_add(value.weight());
        }
        total
    }

    // Where the name stands, or where it would.
    fn place(&self, name: &str) -> Result<usize, usize>
        ensures bound { IsSearchInRange result (length self.now) }
        ensures exact { MatchResult result (StandsAt name.now self.now) (FitsAt name.now self.now) }
    {
        self.fields
            .binary_search_by(|field| field.0.text().cmp(name))
    }

    // The same. A name that comes last is known at once, since names mostly come in their order.
    fn place_to_set(&self, name: &str) -> Result<usize, usize>
        ensures bound { IsSearchInRange result (length self.now) }
        ensures exact { MatchResult result (StandsAt name.now self.now) (FitsAt name.now self.now) }
    {
        match self.fields.last() {
            Some((last, _)) if last.text() < name => Err(self.fields.len()),
            _ => self.place(name),
        }
    }
}
