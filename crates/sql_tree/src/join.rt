use crate::join_way::JoinWay;
use crate::term::Term;

/// How a table after the first is joined to those before it.
#[derive(Drop)]
pub struct Join {
    pub way: JoinWay,
    /// The condition; none exactly behind a comma.
    pub on: Option<Term>,
}
