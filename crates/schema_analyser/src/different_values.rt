ghost use Rattle.std.specs.Prelude.{◌≡◌, ◌≤◌, OnOk, OnErr};
ghost use Rattle.doc_values.specs.Lent.{owned};
ghost use Rattle.doc_values.specs.Value.{IsStorable};

use crate::texts::Texts;
use doc_values::ValueRef;
use indexmap::IndexSet;
use std::alloc::{AllocError, Global};
use std::marker::Model;

/// Values, each once: numbers as they are, texts copied.
#[derive(Drop)]
pub(crate) struct DifferentValues {
    bools: IndexSet<bool>,
    numbers: IndexSet<i64>,
    texts: Texts,
    arrays: Texts,
    object: bool,
}

impl Model for DifferentValues {
    ghost use Rattle.schema_analyser.specs.Different.{Different};

    ghost Value = { Different };

    ghost view = { λ d. record { bools = d.bools.keys; numbers = d.numbers.keys; texts = d.texts; arrays = d.arrays; object = d.object } };
}

impl DifferentValues {
    ghost use Rattle.schema_analyser.specs.Different.{Different, none_met, met, many};

    pub(crate) fn new(alloc: Global) -> DifferentValues
        ensures exact { result ≡ none_met }
    {
        DifferentValues {
            bools: IndexSet::new(alloc),
            numbers: IndexSet::new(alloc),
            texts: Texts::new(alloc),
            arrays: Texts::new(alloc),
            object: false,
        }
    }

    /// How many values there are.
    pub(crate) fn len(&self) -> u32
        requires { many self.now ≤ 4294967295 }
        ensures exact { result ≡ many self.now }
    {
        let objects = if self.object { 1 } else { 0 };
        let texts = self.texts.len() + self.arrays.len();
        (self.bools.len() + self.numbers.len() + texts + objects) as u32
    }

    /// Keeps a value, unless it is there.
    pub(crate) fn add(&mut self, alloc: Global, value: ValueRef<'_>) -> Result<(), AllocError>
        requires { IsStorable (owned value) }
        ensures ok { OnOk result (self.new ≡ met self.old (owned value.entry)) }
        ensures memory { OnErr result (self.new ≡ self.old) }
    {
        match value {
            ValueRef::Bool(b) => {
                self.bools.insert(b)?;
                Ok(())
            }
            ValueRef::Int(n) => {
                self.numbers.insert(n as i64)?;
                Ok(())
            }
            ValueRef::Text(text) => self.texts.add(alloc, text),
            ValueRef::Array(text) => self.arrays.add(alloc, text),
            ValueRef::Object => {
                self.object = true;
                Ok(())
            }
        }
    }
}
