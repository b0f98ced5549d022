//! Values in columns: a finite map from an attribute and a version to a value.
//!
//! Contracts see one map and the one cell that has room reserved. Inside, a column is kept in pages of 1,024 versions,
//! each with a mark for every version that has a value and with values of one kind. It knows nothing of documents,
//! records or what decides where a value stands. Read `specs/Cells.antt` first.
#![tactic(auto)]

mod column;
mod columns;
mod compare_int;
mod comparing;
mod laws;
mod marks;
mod mask;
mod page;
mod slots;
mod spare;
mod walk;

pub use columns::Columns;
pub use compare_int::CompareInt;
pub use doc_values::ValueRef;
pub use laws::cells_are_a_map;
pub use mask::Mask;
pub use spare::Spare;
pub use walk::Walk;
