//! Which tuples of rows go on to the answer of a question: so far those of which its test is true.
//!
//! The one promise: the tuples that are left are those of the definition, in its order.
//! It knows nothing of texts, stores, documents, items, keys or answers. Read `specs/Filter.antt` first.
#![tactic(auto)]

mod filtering;

pub use filtering::filter;
