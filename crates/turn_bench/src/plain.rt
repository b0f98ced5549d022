//! The same job at a mutex of std's.
ghost use Rattle.std.specs.Thread.{IsSync};

use crate::entry::Entry;
use crate::job::Job;
use crate::tally::Tally;
use std::sync::{Mutex, Wait};
use std::thread::{Threads, join};

// Answers how many turns there had been when it was through.
fn work<R: Wait>(rt: &R, tally: &Mutex<Tally>, job: Job) -> u64 {
    let mut first = 0;
    for number in 0..job.turns {
        let mut value = tally.lock(rt);
        first = value.count(Entry { caller: 0, number }, job.keep).turns;
    }
    first
}

/// So many workers do the job by halves. Answers how many turns there had been when the first was through.
pub fn work_in_threads<R: Threads + Wait + Sync>(
    rt: &R,
    tally: &Mutex<Tally>,
    count: u32,
    job: Job,
) -> u64 {
    if count <= 1 {
        return work(rt, tally, job);
    }
    let half = count / 2;
    let rest = count - half;
    let (mine, theirs) = join(
        rt,
        move ||
            requires { IsSync R.row }
        { work_in_threads(rt, tally, rest, job) },
        move ||
            requires { IsSync R.row }
        { work_in_threads(rt, tally, half, job) },
    );
    mine.min(theirs)
}
