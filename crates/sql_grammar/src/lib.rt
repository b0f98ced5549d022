//! The grammar of the query language: which texts spell which statements, and the reading of a text.
//!
//! Its one promise is that `parse` gives no other statement than the one that a text spells, and says that there is none
//! only where it spells none. It knows nothing of documents, of kinds that fit, of what a statement means, or of how one
//! is printed.
//! Read `specs/Expression.antt` first, then `specs/Query.antt` and `specs/Statement.antt`.
#![tactic(auto)]

mod conditions;
mod grammar;
mod laws;
mod lexing;
mod mark;
mod members;
mod nested;
mod nodes;
mod parse_fault;
mod parsing;
mod query;
mod references;
mod sums;
mod terminal;
mod terminals;
mod words;

pub use laws::{a_text_spells_one_statement, a_text_spells_what_is_read};
pub use mark::Mark;
pub use parse_fault::ParseFault;
pub use parsing::parse;
pub use terminal::Terminal;
