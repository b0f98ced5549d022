ghost use Rattle.std.specs.Prelude.{◌≡◌, ◌<◌, OnOk, OnErr};
ghost use Rattle.doc_values.specs.Lent.{owned};
ghost use Rattle.doc_values.specs.Value.{IsStorable};

use crate::different_values::DifferentValues;
use doc_values::ValueRef;
use std::alloc::{AllocError, Global};
use std::marker::Model;

/// How many documents hold an attribute, and their different values.
#[derive(Drop)]
pub(crate) struct Tally {
    count: u32,
    values: DifferentValues,
}

impl Model for Tally {
    ghost use Rattle.std.specs.Prelude.{◌≤◌};
    ghost use Rattle.schema_analyser.specs.Different.{many};
    ghost use Rattle.schema_analyser.specs.Tally.{Tallied};

    ghost Value = { Tallied };

    ghost view = { λ t. record { count = t.count; values = t.values } };

    ghost invariant = { λ t. many t.values ≤ t.count };
}

impl Tally {
    ghost use Rattle.schema_analyser.specs.Different.{many};
    ghost use Rattle.schema_analyser.specs.Tally.{Tallied, untallied, tallied_one};

    pub(crate) fn new(alloc: Global) -> Tally
        ensures exact { result ≡ untallied }
    {
        Tally {
            count: 0,
            values: DifferentValues::new(alloc),
        }
    }

    /// How many documents hold the attribute.
    pub(crate) fn count(&self) -> u32
        ensures exact { result ≡ self.now.count }
    {
        self.count
    }

    /// How many different values they have.
    pub(crate) fn distinct(&self) -> u32
        ensures exact { result ≡ many self.now.values }
    {
        let _count = self.count;
        self.values.len()
    }

    /// Counts one document more, which has this value.
    pub(crate) fn add(&mut self, alloc: Global, value: ValueRef<'_>) -> Result<(), AllocError>
        requires storable { IsStorable (owned value) }
        requires room { self.old.count < 4294967295 }
        ensures ok { OnOk result (self.new ≡ tallied_one self.old (owned value.entry)) }
        ensures memory { OnErr result (self.new ≡ self.old) }
    {
        self.values.add(alloc, value)?;
        self.count += 1;
        Ok(())
    }
}
