//! Prints the statements that texts spell, or times the reading and the printing of them.
//!
//! From standard input come a mode and then texts, one a line; without a line feed nothing is done and nothing printed.
//! In the mode `print` a line is printed for each text: its statement, or `! syntax`. In the mode `time` three numbers are
//! printed for each: the nanoseconds of `parse`, those of `print`, or 0, and whether the text is spelled, as 1 or 0. Each
//! time is the best of five.
#![tactic(auto)]

use anyhow::{Result, anyhow};
use sql_syntax::{ParseFault, Statement, parse, print};
use std::io;
use std::time::Instant;

const ROUNDS: u32 = 5;

fn main(rt: HostRuntime) -> Result<()> {
    let text = io::read_to_string(rt.alloc(), rt.stdin())?;
    let Some((mode, texts)) = text.as_str().split_once('\n') else {
        return Ok(());
    };
    match mode {
        "print" => print_all(&rt, texts),
        "time" => time_all(&rt, texts),
        _ => Err(anyhow!("the mode is neither print nor time")),
    }
}

fn print_all(rt: &HostRuntime, texts: &str) -> Result<()> {
    for text in texts.split_terminator('\n') {
        print_one(rt, text)?;
    }
    Ok(())
}

// Prints the statement that a text spells.
fn print_one(rt: &HostRuntime, text: &str) -> Result<()> {
    match parse(rt.alloc(), text) {
        Ok(statement) => print_statement(rt, &statement),
        Err(ParseFault::Syntax) => print_line(rt, "! syntax"),
        Err(ParseFault::Memory) => Err(anyhow!("memory was wanting")),
    }
}

fn print_statement(rt: &HostRuntime, statement: &Statement) -> Result<()> {
    let mut out = Vec::new(rt.alloc());
    print(statement, &mut out)?;
    print_line(rt, str::from_utf8(out.as_slice())?)
}

fn print_line(rt: &HostRuntime, line: &str) -> Result<()> {
    println!(rt; "{line}")?;
    Ok(())
}

fn time_all(rt: &HostRuntime, texts: &str) -> Result<()> {
    for text in texts.split_terminator('\n') {
        time_one(rt, text)?;
    }
    Ok(())
}

// Prints the times of a text.
fn time_one(rt: &HostRuntime, text: &str) -> Result<()> {
    let reading = best_read(rt, text)?;
    match parse(rt.alloc(), text) {
        Ok(statement) => time_statement(rt, reading, &statement),
        Err(ParseFault::Syntax) => print_times(rt, reading, 0, 0),
        Err(ParseFault::Memory) => Err(anyhow!("memory was wanting")),
    }
}

fn time_statement(rt: &HostRuntime, reading: u128, statement: &Statement) -> Result<()> {
    let printing = best_print(rt, statement)?;
    print_times(rt, reading, printing, 1)
}

fn print_times(rt: &HostRuntime, reading: u128, printing: u128, spelled: u8) -> Result<()> {
    println!(rt; "{reading} {printing} {spelled}")?;
    Ok(())
}

fn best_read(rt: &HostRuntime, text: &str) -> Result<u128> {
    let mut best = u128::MAX;
    for _ in 0..ROUNDS {
        best = best.min(time_read(rt, text)?);
    }
    Ok(best)
}

// The nanoseconds in which a text is read, and what is read of it let go.
fn time_read(rt: &HostRuntime, text: &str) -> Result<u128> {
    let start = Instant::now(rt)?;
    read(rt, text)?;
    Ok(start.elapsed(rt)?.as_nanos())
}

fn read(rt: &HostRuntime, text: &str) -> Result<()> {
    match parse(rt.alloc(), text) {
        Ok(_) | Err(ParseFault::Syntax) => Ok(()),
        Err(ParseFault::Memory) => Err(anyhow!("memory was wanting")),
    }
}

fn best_print(rt: &HostRuntime, statement: &Statement) -> Result<u128> {
    let mut best = u128::MAX;
    for _ in 0..ROUNDS {
        best = best.min(time_print(rt, statement)?);
    }
    Ok(best)
}

// The nanoseconds in which a statement is printed.
fn time_print(rt: &HostRuntime, statement: &Statement) -> Result<u128> {
    let mut out = Vec::new(rt.alloc());
    let start = Instant::now(rt)?;
    print(statement, &mut out)?;
    Ok(start.elapsed(rt)?.as_nanos())
}
