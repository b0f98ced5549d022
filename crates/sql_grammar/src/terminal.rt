use crate::mark::Mark;
use doc_values::Utf;

/// A token as the grammar sees it.
#[derive(Drop)]
pub enum Terminal {
    /// A word that is not reserved.
    Word(Utf),
    /// The name between double quotes.
    Quoted(Utf),
    Number(u64),
    /// The value of a text.
    Text(Utf),
    Mark(Mark),
}
