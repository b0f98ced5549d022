//! Where the bytes of a run come from and where they go.
//!
//! A source and a sink may say what they still have and what they took; told bytes move in order, and a
//! failure comes only where the device's own count of faults rose. This crate knows nothing of what the
//! bytes mean. Read `specs/Told.antt` first, then `specs/Device.antt`.
#![tactic(auto)]

mod got;
mod laws;
mod mem_sink;
mod mem_source;
mod piece;
mod put;
mod reading;
mod schedule;
mod sink;
mod source;
mod std_sink;
mod std_source;
mod sure_sink;
mod sure_source;
mod take_fault;
mod taken;
mod turns;
mod writing;
mod written;

pub use got::Got;
pub use laws::{an_end_leaves_no_bytes, what_is_over_stays_over};
pub use mem_sink::MemSink;
pub use mem_source::MemSource;
pub use put::Put;
pub use reading::{read_in_turns, read_up_to};
pub use sink::Sink;
pub use source::Source;
pub use std_sink::StdSink;
pub use std_source::StdSource;
pub use sure_sink::SureSink;
pub use sure_source::SureSource;
pub use take_fault::TakeFault;
pub use taken::Taken;
pub use turns::Turns;
pub use writing::write_all_of;
pub use written::Written;
