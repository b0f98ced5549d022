//! The documents that all rows of a collection show after a number of commits, as one list in the order of the rows.
//!
//! Its promise is one law: what is said of each row by itself comes to what is said of the list. A row that a change makes
//! or takes away, documents loaded behind the others, and a number at which nothing was done are rules on the list. It
//! knows nothing of where values stand or of what a write is, and has no code.
//! Read `specs/Rows.antt` first, then `specs/Follow.antt`.
#![tactic(auto)]

mod laws;

pub use laws::rows_follow_their_documents;
