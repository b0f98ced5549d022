//! One collection's storage: each value in its version's record or in a cell, and moves that change no document.
//!
//! Contracts see everything: the attributes, the versions, the fields of each record and the map of cells. What rows show
//! at each number of commits is said of that, and every call says what it leaves of it. It knows nothing of statements,
//! scans or what decides where values belong.
//! Read `specs/Storage.antt` first, then `specs/Documents.antt`, `specs/Placed.antt`, `specs/Shows.antt` and `specs/Changes.antt`.
#![tactic(auto)]

mod cell_ids;
mod counting;
mod grow_fault;
mod layout;
mod lent_numbering;
mod moving;
mod numbering;
mod pushing;
mod reading;
mod record_place;
mod rolling;
mod value_walk;
mod whole;

pub use grow_fault::GrowFault;
pub use layout::Layout;
pub use value_walk::ValueWalk;
