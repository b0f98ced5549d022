//! Times the reading of documents beside the bare reading of the same JSON text.
//!
//! The text comes from standard input; without one nothing is done and nothing printed. What is printed are the
//! microseconds of both readings, each the best of five.
#![tactic(auto)]

use anyhow::{Result, anyhow};
use doc_flatten::read_docs;
use serde_json::Value;
use std::io;
use std::time::Instant;

const ROUNDS: u32 = 5;

fn main(rt: HostRuntime) -> Result<()> {
    let text = io::read_to_string(rt.alloc(), rt.stdin())?;
    if text.is_empty() {
        return Ok(());
    }
    let mut bare = u128::MAX;
    let mut whole = u128::MAX;
    for _ in 0..ROUNDS {
        bare = bare.min(read_bare(&rt, text.as_str())?);
        whole = whole.min(read_whole(&rt, text.as_str())?);
    }
    println!(rt; "{bare} {whole}")?;
    Ok(())
}

// The microseconds in which the text is read as a tree.
fn read_bare(rt: &HostRuntime, text: &str) -> Result<u128> {
    let start = Instant::now(rt)?;
    let tree = Value::from_str(rt.alloc(), text);
    let taken = start.elapsed(rt)?.as_micros();
    match tree {
        Ok(_) => Ok(taken),
        Err(_) => Err(anyhow!("no JSON")),
    }
}

// The microseconds in which the text is read as documents.
fn read_whole(rt: &HostRuntime, text: &str) -> Result<u128> {
    let start = Instant::now(rt)?;
    let docs = read_docs(rt.alloc(), text);
    let taken = start.elapsed(rt)?.as_micros();
    match docs {
        Ok(_) => Ok(taken),
        Err(_) => Err(anyhow!("no documents")),
    }
}
