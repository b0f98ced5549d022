ghost use Rattle.std.specs.Prelude.{◌≡◌, [], IfOk, OnOk};
ghost use Rattle.type_rules.specs.Uses.{noted};
ghost use Rattle.type_rules.specs.Steps.{IsPlaceOf};

use crate::column::Column;
use doc_values::{ColRef, Kind};
use indexmap::IndexSet;
use sql_eval::Slot;
use sql_tree::Ref;
use sqlite_items::Items;
use std::alloc::{AllocError, Global};
use std::marker::Model;

// The columns to which references were noted, each once, in the order of the first references. Their names are lent.
#[derive(Drop)]
pub(crate) struct Columns<'a> {
    set: IndexSet<Column<'a>>,
}

impl<'a> Model for Columns<'a> {
    ghost use Rattle.std.specs.Prelude.{List, map};
    ghost use Rattle.doc_values.specs.declared.col_ref.ColRef.{ColRef as Read};
    ghost use Rattle.type_rules.specs.SameColumns.{column_named};

    ghost Value = { List Read };

    ghost view = { λ c. map (λ k. column_named k.name.now k.want) c.set.keys };
}

impl<'a> Columns<'a> {
    pub(crate) fn new(alloc: Global) -> Columns<'a>
        ensures exact { result ≡ [] }
    {
        Columns {
            set: IndexSet::new(alloc),
        }
    }

    // Notes a reference of which a kind is wanted, or none, and gives the place of its column.
    pub(crate) fn note(
        &mut self,
        reference: &'a Ref,
        want: Option<Kind>,
    ) -> Result<Slot, AllocError>
        ensures noted { OnOk result (self.new ≡ noted self.old (record { ref = reference.now; want = want })) }
        ensures place { IfOk result (λ slot. IsPlaceOf self.new reference.now want slot) }
    {
        let column = Column {
            name: &reference.name,
            want,
        };
        let (place, _) = self.set.insert_full(column)?;
        let Ok(column) = u32::try_from(place) else {
            return Err(AllocError);
        };
        Ok(Slot { table: 0, column })
    }

    // The columns as a list of their own, the name of each copied.
    pub(crate) fn to_items(&self, alloc: Global) -> Result<Items<ColRef>, AllocError>
        ensures ok { IfOk result (λ columns. columns ≡ self.now) }
    {
        let mut columns = Items::new(alloc);
        for column in self.set.as_slice() {
            columns.push(column.copy()?)?;
        }
        Ok(columns)
    }
}
