use crate::term::Term;

/// A key by which rows are put in order.
#[derive(Drop)]
pub struct Key {
    pub expr: Term,
    pub descending: bool,
}
