//! Plays histories of versions of rows and tells what rows show, and times the calls.
//!
//! From standard input come lines. A line of events is a history: `+ROW@COMMIT` appends a version, `-VERSION@COMMIT` ends
//! one, and `xVERSION@NUMBER` empties one and raises the horizon to the number. What is printed of it: after each number
//! of commits the version that each row shows; the changes; and the versions and rows that are left as one commit after the
//! other is taken back. A line `time N` prints nanoseconds for N rows.
#![tactic(auto)]

mod event;
mod played;
mod table;
mod timing;

use crate::event::read_event;
use crate::played::Played;
use crate::table::{print_changes, print_left, print_table};
use crate::timing::time;
use anyhow::{Context, Result, anyhow};
use std::io;

fn main(rt: HostRuntime) -> Result<()> {
    let text = io::read_to_string(rt.alloc(), rt.stdin())?;
    for line in text.as_str().lines() {
        match line.strip_prefix("time ") {
            Some(rows) => time(&rt, rows.parse().context("no number of rows")?)?,
            None => play(&rt, line)?,
        }
    }
    Ok(())
}

// Plays a history and prints what it shows.
fn play(rt: &HostRuntime, line: &str) -> Result<()> {
    let mut played = Played::new(rt.alloc());
    for word in line.split_ascii_whitespace() {
        let event = read_event(word).ok_or_else(|| anyhow!("a word is no event"))?;
        played.step(event)?;
    }
    print_table(rt, &played)?;
    print!(rt; " ;")?;
    print_changes(rt, &played)?;
    print!(rt; " ;")?;
    print_left(rt, played)?;
    println!(rt; "")?;
    Ok(())
}
