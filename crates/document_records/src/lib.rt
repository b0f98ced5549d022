//! A document as a record: a field for each of its own, under the number that a catalog has for its name and kind.
//!
//! What is read back of a record is what its document has: one value under a name, or the document as a whole. That is
//! the promise of this crate. It knows nothing of tables, loads or questions, nor of how the bytes of a record lie.
//! Read `specs/StoredValue.antt` first, then `specs/StoredDocument.antt`.
#![tactic(auto)]

mod laws;
mod parts;
mod record;
mod record_reading;
mod stored_value;
mod whole_document;

pub use laws::{records_are_their_documents, records_keep_documents};
pub use parts::Parts;
pub use record::Record;
pub use record_reading::{value_of_kind, value_under};
pub use stored_value::{
    kind_stored, push_value, read_lent, read_value, stored_values_are_told_apart,
};
pub use whole_document::document;
