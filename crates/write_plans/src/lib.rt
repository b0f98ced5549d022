//! What a write makes of one collection's layout: documents are loaded into it, or it is left as it was.
//!
//! Contracts see the storage of the collection before and after, and the collection that it shows at each number of commits.
//! This crate knows nothing of other collections, of commits as a list, or of texts.
//! Read `specs/Collection.antt` first, then `specs/Becomes.antt`.
#![tactic(auto)]

mod loading;

pub use loading::load;
