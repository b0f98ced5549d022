use crate::select::Select;
use crate::set::Set;
use crate::term::Term;
use doc_values::Utf;
use sqlite_items::Items;

/// What a text says.
#[derive(Drop)]
pub enum Statement {
    /// Puts the documents of a JSON text into a collection.
    Load {
        collection: Utf,
        json: Utf,
    },
    Select(Select),
    Update {
        collection: Utf,
        sets: Items<Set>,
        test: Option<Term>,
    },
    Delete {
        collection: Utf,
        test: Option<Term>,
    },
}
