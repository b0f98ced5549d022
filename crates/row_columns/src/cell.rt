use doc_values::Span;

/// A value of a column, or NULL.
#[derive(Clone, Copy)]
pub(crate) enum Cell {
    Null,
    Bool(bool),
    Number(i64),
    /// A number that 64 bits do not hold: its place among those of the column.
    Wide(u32),
    Text(Span),
    Array(Span),
    Object,
}
