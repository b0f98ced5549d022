use crate::cell::Cell;
use crate::span::Span;

/// A field of a document in one body: where its name lies, and its value.
#[derive(Clone, Copy)]
pub(crate) struct FieldCell {
    pub name: Span,
    pub value: Cell,
}
