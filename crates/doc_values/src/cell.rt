use crate::span::Span;

/// A value of a document in one body.
#[derive(Clone, Copy)]
pub(crate) enum Cell {
    Bool(bool),
    Number(i64),
    Text(Span),
    Array(Span),
    Object,
}
