use crate::term::Term;

/// A member of a sum.
#[cycle(term)]
#[derive(Drop)]
pub struct Addend {
    /// It is taken away; false of a sum's first member.
    pub minus: bool,
    pub term: Term,
}
