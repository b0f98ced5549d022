//! The tree of a statement: what a text of the query language says, with nothing of how it was written.
//!
//! Its one promise is that the types are plain data: contracts see a list where a list stands and a term where a term
//! stands, with no pointer between. It knows nothing of texts, tokens, names that are bound, or kinds that fit.
//! Read `src/statement.rt` first, then `src/term.rt`.
#![tactic(auto)]

mod addend;
mod agg_call;
mod item;
mod join;
mod join_way;
mod key;
mod reference;
mod select;
mod set;
mod statement;
mod table;
mod term;

pub use addend::Addend;
pub use agg_call::AggCall;
pub use item::Item;
pub use join::Join;
pub use join_way::JoinWay;
pub use key::Key;
pub use reference::Ref;
pub use select::Select;
pub use set::Set;
pub use statement::Statement;
pub use table::Table;
pub use term::Term;
