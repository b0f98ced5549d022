use crate::item::Item;
use crate::join::Join;
use crate::key::Key;
use crate::reference::Ref;
use crate::table::Table;
use crate::term::Term;
use sqlite_items::Items;

/// A question over tables.
#[derive(Drop)]
pub struct Select {
    /// Whole documents are asked for: one table and no items.
    pub star: bool,
    pub distinct: bool,
    pub items: Items<Item>,
    pub tables: Items<Table>,
    /// One for each table after the first.
    pub joins: Items<Join>,
    pub test: Option<Term>,
    pub grouping: Items<Ref>,
    pub having: Option<Term>,
    pub keys: Items<Key>,
    pub limit: Option<u64>,
}
