//! Takes turns at a lock from eight threads, and looks at what the lock gives when it is closed.
//!
//! Each line has the passes of a lock, the callers that made entries and the entries, and says how many turns the callers
//! took. With the argument `time` turns are timed instead, beside those at a mutex of std's.
#![tactic(auto)]

mod entry;
mod job;
mod looked;
mod plain;
mod tally;
mod timing;
mod work;

use crate::job::Job;
use crate::looked::look;
use crate::tally::Tally;
use crate::work::work_in_threads;
use anyhow::{Result, anyhow};
use std::alloc::Global;
use std::env;
use std::sync::Wait;
use std::thread::Threads;
use turn_lock::Lock;

const WORKERS: u32 = 8;

const TURNS: u32 = 10_000;

fn main(rt: HostRuntime) -> Result<()> {
    let timed = env::args(&rt)?.nth(1).is_some();
    if timed {
        return timing::time(&rt, rt.alloc());
    }
    take_turns(&rt, rt.alloc(), WORKERS)?;
    take_turns(&rt, rt.alloc(), WORKERS - 1)
}

// Eight workers take their turns, and one takes those of two where there is a pass too few.
fn take_turns<R: Print + Threads + Wait + Sync>(rt: &R, alloc: Global, passes: u32) -> Result<()> {
    let Ok((lock, pass)) = Lock::new(alloc, Tally::new(alloc), passes.max(1)) else {
        return Err(anyhow!("no memory for a lock"));
    };
    let job = Job {
        turns: TURNS,
        keep: true,
    };
    let (pass, done) = work_in_threads(rt, &lock, pass, WORKERS, job);
    let tally = lock.close(rt, pass);
    if !done.kept {
        return Err(anyhow!("no memory for an entry"));
    }
    let Some(looked) = look(&tally) else {
        return Err(anyhow!("an entry is out of its caller's order"));
    };
    println!(rt;
        "{passes} passes, {} refused: {} entries, each caller's in order; {} callers took {TURNS} turns, {} took {}",
        done.refused,
        looked.entries,
        looked.once,
        looked.twice,
        2 * TURNS
    )?;
    Ok(())
}
