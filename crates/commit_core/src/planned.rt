use doc_values::{Bytes, Documents, Utf};
use sql_eval::SelectPlan;

/// What a text comes to before any store is looked at.
#[derive(Drop)]
pub(crate) enum Planned {
    /// It is refused with this line.
    Refused(Bytes),
    /// It is a question.
    Read(SelectPlan),
    /// It puts documents into a collection.
    Write {
        collection: Utf,
        documents: Documents,
    },
}
