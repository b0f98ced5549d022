//! The rows of a collection at a number of commits, batch by batch.
//!
//! Its promise: after each batch the rows of a scan are those that its references give over the documents shown in the rows
//! that it has passed, of those that its test keeps, whatever was moved or written between the batches; and it says exactly
//! when what it reads is gone. It knows nothing of questions beyond one table and of answers.
//! Read `specs/Scans.antt` first.
#![tactic(auto)]

mod batching;
mod finding;
mod read_rows;
mod reading;
mod scan;
mod step;
mod testing;

pub use batching::batch;
pub use scan::Scan;
pub use step::Step;
