//! The catalog of a collection: an exact list of its attributes.
//!
//! Each pair of a name and a kind that ever occurs is an attribute, whose number is its place in the list, with
//! a count, a home and a mark. This crate knows nothing of where values are stored or what documents are.
//! Read `specs/Attribute.antt` first, then `specs/Catalog.antt`.
#![tactic(auto)]

mod add_fault;
mod catalog;
mod home;
mod kinds;
mod names;
mod path;
mod stored;
mod way;

pub use add_fault::AddFault;
pub use catalog::{Catalog, MOST_ATTRIBUTES};
pub use home::Home;
pub use kinds::Kinds;
pub use path::Path;
pub use way::Way;
