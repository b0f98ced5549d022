//! JSON texts as documents: nested objects become dotted names, arrays their compact text.
//!
//! Reading answers exactly the documents that the text stands for, or the number of the first one that is
//! excluded, or that memory was wanting. This crate knows nothing of where the documents go. Read `specs/Tree.antt`
//! first, then `specs/Fields.antt` and `specs/Documents.antt`.
#![tactic(auto)]

mod flatten_fault;
mod flattening;
mod laws;
mod load_fault;
mod loading;
mod path;
mod plain;

pub use laws::{document_arrays_are_one_line, documents_are_light, documents_keep_the_limits};
pub use load_fault::LoadFault;
pub use loading::read_docs;
