use crate::term::Term;
use doc_values::Utf;

/// A column that an update writes, and what it writes there.
#[derive(Drop)]
pub struct Set {
    pub name: Utf,
    pub expr: Term,
}
