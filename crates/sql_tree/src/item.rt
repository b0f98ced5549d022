use crate::term::Term;
use doc_values::Utf;

/// A column of an answer.
#[derive(Drop)]
pub struct Item {
    pub expr: Term,
    pub alias: Option<Utf>,
}
