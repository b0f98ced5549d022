//! Puts values in columns, takes them out and reads them, beside a map of the standard library, and times the calls.
//!
//! From standard input come commands, one a line; each is answered by a line. The number of an attribute tells its kind:
//! its rest by 5 is 0 for numbers, 1 for truths, 2 for texts, 3 for arrays, 4 for objects; and a value is named by a
//! number. See README.md for the commands.
#![tactic(auto)]

mod commands;
mod random;
mod reading;
mod timing;
mod typed;

use crate::typed::empty;
use anyhow::Result;
use std::io;

fn main(rt: HostRuntime) -> Result<()> {
    let text = io::read_to_string(rt.alloc(), rt.stdin())?;
    let mut columns = empty(rt.alloc());
    commands::run_all(&rt, &mut columns, text.as_str())
}
