use crate::addend::Addend;
use crate::agg_call::AggCall;
use crate::reference::Ref;
use doc_values::{CompareOp, Kind, Utf};
use sqlite_items::{Boxed, Items};

/// An expression. A chain of one operator is one node with its members in order; brackets make no node.
#[cycle(term)]
#[derive(Drop)]
pub enum Term {
    Number(u64),
    Text(Utf),
    Bool(bool),
    Null,
    Column(Ref),
    /// A column whose values are wanted to be of a kind.
    Wanted {
        kind: Kind,
        column: Ref,
    },
    Or(Items<Term>),
    And(Items<Term>),
    Not(Boxed<Term>),
    Compare {
        op: CompareOp,
        left: Boxed<Term>,
        right: Boxed<Term>,
    },
    IsNull {
        arg: Boxed<Term>,
        negated: bool,
    },
    Among {
        arg: Boxed<Term>,
        members: Items<Term>,
        negated: bool,
    },
    Between {
        arg: Boxed<Term>,
        low: Boxed<Term>,
        high: Boxed<Term>,
        negated: bool,
    },
    Like {
        arg: Boxed<Term>,
        pattern: Utf,
        negated: bool,
    },
    /// Whether the array in a column has the value.
    AnyOf {
        arg: Boxed<Term>,
        column: Ref,
    },
    Sum(Items<Addend>),
    Product(Items<Term>),
    Minus(Boxed<Term>),
    CountAll,
    Aggregate {
        call: AggCall,
        arg: Boxed<Term>,
    },
}
