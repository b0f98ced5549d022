//! Times records beside plain lists of pairs: finding a number's value, and building twenty fields.
//!
//! Without input nothing is done and nothing printed. Each printed line has a name, a number of fields, and nanoseconds
//! a call, each the best of five: of the record's calls first, then of the plain list's.
#![tactic(auto)]

mod finding;
mod making;
mod samples;

use anyhow::Result;
use std::io;

fn main(rt: HostRuntime) -> Result<()> {
    let text = io::read_to_string(rt.alloc(), rt.stdin())?;
    if text.is_empty() {
        return Ok(());
    }
    for count in [1, 16, 256, 4096] {
        finding::time(&rt, count)?;
    }
    making::time(&rt)
}
