ghost use Rattle.std.specs.Prelude.{◌≡◌, ◌≤◌, ◌+◌, ◌-◌, [], OnOk, length};
ghost use Rattle.row_versions.specs.History.{rows_of};

use crate::shown_versions::shown_versions;
use crate::taking::{reach, take_all};
use crate::tally::Tally;
use doc_values::AttrId;
use layout_store::Layout;
use std::alloc::{AllocError, Global};
use std::marker::Model;

/// What is counted of the documents of some rows. Its memory grows with the different values of the attributes, and with
/// nothing else but the attributes themselves.
#[derive(Drop)]
pub struct Survey {
    rows: u32,
    documents: u32,
    tallies: Vec<Tally>,
}

impl Model for Survey {
    ghost use Rattle.std.specs.Prelude.{◌≤◌, All, length};
    ghost use Rattle.attr_catalog.specs.Catalog.{most_attributes};
    ghost use Rattle.schema_analyser.specs.Survey.{Surveyed};

    ghost Value = { Surveyed };

    ghost view = { λ s. record { rows = s.rows; documents = s.documents; tallies = s.tallies.items } };

    ghost invariant = { λ s. (s.documents ≤ s.rows) × (length s.tallies.items ≤ most_attributes) × All (λ t. t.count ≤ s.documents) s.tallies.items };
}

impl Survey {
    ghost use Rattle.schema_analyser.specs.Different.{many};
    ghost use Rattle.schema_analyser.specs.Survey.{Surveyed, HasTaken, tally_of};

    pub fn new(alloc: Global) -> Survey
        ensures exact { result ≡ record { rows = 0; documents = 0; tallies = [] } }
    {
        Survey {
            rows: 0,
            documents: 0,
            tallies: Vec::new(alloc),
        }
    }

    /// Takes the documents that the rows from number `from` to the one before `to` show after `now` commits. After want of
    /// memory the survey is spent: it may have taken some of them.
    pub fn take(&mut self, layout: &Layout, now: u64, from: u32, to: u32) -> Result<(), AllocError>
        requires now { layout.now.history.horizon ≤ now }
        requires order { from ≤ to }
        requires within { to ≤ rows_of layout.now.history.versions }
        requires room { self.old.rows + (to - from) ≤ 4294967295 }
        ensures ok { OnOk result (HasTaken layout.now now from to self.old self.new) }
        ensures rows { self.new.rows ≡ self.old.rows + (to - from) }
    {
        self.rows += to - from;
        let alloc = *self.tallies.allocator();
        layout.catalog().keeps_the_rules();
        let versions = shown_versions(alloc, layout, now, from, to)?;
        reach(alloc, &mut self.tallies, layout.catalog().len() as usize)?;
        self.documents += versions.len() as u32;
        take_all(alloc, layout, &versions, &mut self.tallies)
    }

    /// How many of the documents taken hold an attribute, and how many different values they have of it.
    pub fn tally(&self, id: AttrId) -> (u32, u32)
        ensures exact { result ≡ ((tally_of id.0 self.now.tallies).count, many (tally_of id.0 self.now.tallies).values) }
    {
        match self.tallies.get(id.0 as usize) {
            Some(tally) => (tally.count(), tally.distinct()),
            None => (0, 0),
        }
    }

    /// How many attributes were met: those with a number below that.
    pub(crate) fn len(&self) -> u32
        ensures exact { result ≡ length self.now.tallies }
    {
        self.tallies.len() as u32
    }

    pub(crate) fn allocator(&self) -> Global {
        *self.tallies.allocator()
    }

    /// How many documents were taken.
    pub(crate) fn documents(&self) -> u32
        ensures exact { result ≡ self.now.documents }
    {
        self.documents
    }
}
