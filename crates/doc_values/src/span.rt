/// Where a text lies among texts behind one another.
#[derive(Clone, Copy)]
pub struct Span {
    pub start: u32,
    pub end: u32,
}
