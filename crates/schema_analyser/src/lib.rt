//! Which attributes of a collection become columns: a survey of its documents, and the choice.
//!
//! A survey counts, for each attribute, the documents that hold it and its different values. It is taken in pieces of rows,
//! so that none takes long. The choice tests these counts against two limits.
//! Read `specs/Choice.antt` first, then `specs/Survey.antt` and `specs/Different.antt`.
#![tactic(auto)]

mod choice;
mod choosing;
mod different_values;
mod lawful;
mod limits;
mod shown_versions;
mod survey;
mod taking;
mod tally;
mod texts;

pub use choice::Choice;
pub use choosing::{choose, choose_now};
pub use limits::Limits;
pub use survey::Survey;
