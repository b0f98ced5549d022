//! Times turns.
use crate::job::Job;
use crate::plain;
use crate::tally::Tally;
use crate::work::work_in_threads;
use anyhow::{Result, anyhow};
use std::alloc::Global;
use std::sync::{Mutex, Wait};
use std::thread::Threads;
use std::time::{Clock, Instant};
use turn_lock::Lock;

const ROUNDS: u32 = 3;

const TURNS: u32 = 1_600_000;

// The nanoseconds of a turn, the least of all rounds, and how many of a hundred turns were over when the first worker was
// through, at that round.
#[derive(Clone, Copy)]
struct Taken {
    nanos: u128,
    first: u64,
}

/// Prints the figures for one worker and for four, at the lock and at a mutex.
pub fn time<R: Print + Clock + Threads + Wait + Sync>(rt: &R, alloc: Global) -> Result<()> {
    for workers in [1, 2, 4, 8] {
        for keep in [false, true] {
            let job = Job {
                turns: TURNS / workers,
                keep,
            };
            let turn = best(rt, alloc, workers, job, true)?;
            let plain = best(rt, alloc, workers, job, false)?;
            println!(rt;
                "{workers} workers, entries {keep}: lock {} ns a turn, {} in 100 when the first is through; mutex {} ns, {} in 100",
                turn.nanos, turn.first, plain.nanos, plain.first
            )?;
        }
    }
    Ok(())
}

fn best<R: Clock + Threads + Wait + Sync>(
    rt: &R,
    alloc: Global,
    workers: u32,
    job: Job,
    turns: bool,
) -> Result<Taken> {
    let mut best = Taken {
        nanos: u128::MAX,
        first: 0,
    };
    for _ in 0..ROUNDS {
        let taken = if turns {
            at_lock(rt, alloc, workers, job)?
        } else {
            at_mutex(rt, alloc, workers, job)?
        };
        if taken.nanos < best.nanos {
            best = taken;
        }
    }
    Ok(best)
}

fn at_lock<R: Clock + Threads + Wait + Sync>(
    rt: &R,
    alloc: Global,
    workers: u32,
    job: Job,
) -> Result<Taken> {
    let start = Instant::now(rt)?;
    let Ok((lock, pass)) = Lock::new(alloc, Tally::new(alloc), workers.max(1)) else {
        return Err(anyhow!("no memory for a lock"));
    };
    let (pass, done) = work_in_threads(rt, &lock, pass, workers, job);
    let spent = start.elapsed(rt);
    let tally = lock.close(rt, pass);
    let nanos = spent?.as_nanos();
    Ok(taken_of(nanos, done.first, tally.turns))
}

fn at_mutex<R: Clock + Threads + Wait + Sync>(
    rt: &R,
    alloc: Global,
    workers: u32,
    job: Job,
) -> Result<Taken> {
    let tally = Mutex::new(Tally::new(alloc));
    let start = Instant::now(rt)?;
    let first = plain::work_in_threads(rt, &tally, workers, job);
    let nanos = start.elapsed(rt)?.as_nanos();
    let tally = tally.into_inner();
    Ok(taken_of(nanos, first, tally.turns))
}

fn taken_of(nanos: u128, first: u64, turns: u64) -> Taken {
    let turns = turns.max(1);
    Taken {
        nanos: nanos / u128::from(turns),
        first: first.saturating_mul(100) / turns,
    }
}
