//! Rows by their columns: what is read of a table, tuples of its rows, and a value that is lent from them.
//!
//! Its promise: each type is the list of rows or of tuples that its calls say, whatever lies in its columns; no value is
//! copied to be read. It knows nothing of expressions, records or answers. Read `specs/Contents.antt` first, then
//! `specs/Placed.antt`.
#![tactic(auto)]

mod cell;
mod cell_column;
mod filling;
mod lending;
mod place;
mod sides;
mod table_rows;
mod tuples;

pub use cell_column::CellColumn;
pub use doc_values::ValueRef;
pub use place::Place;
pub use sides::Sides;
pub use table_rows::TableRows;
pub use tuples::Tuples;
