//! What can be loaded can be asked for: each field name of a document has a text that asks for it.
//!
//! Its one promise is the law that joins the reading of documents to the grammar. It knows nothing of stores or of what a
//! question means, and has no code.
//! Read `specs/Asked.antt` first.
#![tactic(auto)]

mod name_laws;

pub use name_laws::what_is_loaded_can_be_asked_for;
