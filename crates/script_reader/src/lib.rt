//! Scripts: bytes as a list of lines, each a statement's text that a session says.
//!
//! Reading answers the one script that the bytes are, or the one fault for which they are none, or that memory was
//! wanting. This crate knows nothing of what a statement means. Read `specs/Pieces.antt` first, then `specs/Script.antt`.
#![tactic(auto)]

mod draft;
mod laws;
mod limits;
mod line;
mod named;
mod names;
mod number;
mod piece;
mod positions;
mod reading;
mod script;
mod script_fault;
mod script_read_fault;
mod statement;
mod why;

pub use laws::{
    bytes_are_one_script, followed_lines_stand_above, lines_are_told_apart,
    long_bytes_are_no_script, numbers_are_small, scripts_keep_the_rules, sessions_are_written,
};
pub use limits::{MOST_BYTES, MOST_LINE_BYTES, MOST_LINES, MOST_SESSIONS};
pub use line::Line;
pub use positions::Positions;
pub use reading::read_script;
pub use script::Script;
pub use script_fault::ScriptFault;
pub use script_read_fault::ScriptReadFault;
pub use why::Why;
