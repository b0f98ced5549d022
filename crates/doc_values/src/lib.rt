//! Values, the documents that hold them, and the text of a value in an answer.
//!
//! A document is a finite map from names to values, and values are in one total order: that is the promise of this crate,
//! with the exact text and weight of each value. It knows nothing of where a document comes from, how it is stored or who
//! asks. Read `specs/Value.antt` first, then `specs/Doc.antt` and `specs/Order.antt`.
#![tactic(auto)]

mod argv;
mod attr_id;
mod bytes;
mod calls;
mod cell;
mod col_ref;
mod compare_op;
mod comparing;
mod doc;
mod doc_place;
mod doc_ref;
mod documents;
mod field_cell;
mod kind;
mod laws;
mod packed_doc;
mod packing;
mod span;
mod spans;
mod spelling;
mod unpacking;
mod utf;
mod value;
mod value_ref;

pub use argv::Argv;
pub use attr_id::AttrId;
pub use bytes::Bytes;
pub use calls::Calls;
pub use col_ref::ColRef;
pub use compare_op::CompareOp;
pub use comparing::{compare, order};
pub use doc::Doc;
pub use doc_ref::DocRef;
pub use documents::Documents;
pub use kind::Kind;
pub use laws::{documents_are_maps, printed_values_are_one_line, values_are_in_total_order};
pub use packed_doc::PackedDoc;
pub use span::Span;
pub use spans::{append_text, text_in};
pub use spelling::spell;
pub use utf::Utf;
pub use value::Value;
pub use value_ref::ValueRef;
