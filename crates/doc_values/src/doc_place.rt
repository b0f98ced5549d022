use crate::span::Span;

/// Where a document lies among documents behind one another: its texts, and its fields from the first to before the last.
#[derive(Clone, Copy)]
pub(crate) struct DocPlace {
    pub texts: Span,
    pub first: u32,
    pub last: u32,
}
