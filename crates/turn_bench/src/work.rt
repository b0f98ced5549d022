//! Workers, each in a thread with a pass of its own.
ghost use Rattle.std.specs.Prelude.{◌≡◌};
ghost use Rattle.std.specs.Thread.{IsSync};

use crate::entry::Entry;
use crate::job::Job;
use crate::tally::Tally;
use std::sync::Wait;
use std::thread::{Threads, join};
use turn_lock::{Lock, Pass};

/// What workers have done: whether each entry was kept, how many splits were refused, and how many turns there had been
/// when the first of them was through.
#[derive(Clone, Copy)]
pub struct Done {
    pub kept: bool,
    pub refused: u32,
    pub first: u64,
}

// Takes the turns of so many workers.
fn work<R: Wait>(
    rt: &R,
    lock: &Lock<Tally>,
    mut pass: Pass<Tally>,
    count: u32,
    job: Job,
) -> (Pass<Tally>, Done)
    requires lock { pass.lock ≡ lock.now.id }
    ensures lock { result.0.lock ≡ pass.lock }
{
    let caller = pass.caller();
    let mut kept = true;
    let mut first = 0;
    for number in 0..job.turns.saturating_mul(count) {
        let mut turn = lock.enter(rt, pass);
        let turned = turn.value().count(Entry { caller, number }, job.keep);
        pass = Lock::leave(turn);
        kept = kept && turned.kept;
        first = turned.turns;
    }
    let done = Done {
        kept,
        refused: 0,
        first,
    };
    (pass, done)
}

/// So many workers do the job by halves, each half in a thread. Where a split is refused, one takes the turns of all.
pub fn work_in_threads<R: Threads + Wait + Sync>(
    rt: &R,
    lock: &Lock<Tally>,
    mut pass: Pass<Tally>,
    count: u32,
    job: Job,
) -> (Pass<Tally>, Done)
    requires lock { pass.lock ≡ lock.now.id }
    ensures lock { result.0.lock ≡ pass.lock }
{
    if count <= 1 {
        return work(rt, lock, pass, count, job);
    }
    let Some(other) = lock.split(&mut pass) else {
        let (pass, done) = work(rt, lock, pass, count, job);
        return (pass, Done { refused: 1, ..done });
    };
    let half = count / 2;
    let rest = count - half;
    let ((mut pass, mine), (other, theirs)) = join(
        rt,
        move || -> (Pass<Tally>, Done)
            requires { IsSync R.row × (pass.lock ≡ lock.now.id) }
            ensures { result.0.lock ≡ pass.lock }
        { work_in_threads(rt, lock, pass, rest, job) },
        move || -> (Pass<Tally>, Done)
            requires { IsSync R.row × (other.lock ≡ lock.now.id) }
            ensures { result.0.lock ≡ other.lock }
        { work_in_threads(rt, lock, other, half, job) },
    );
    lock.give_back(&mut pass, other);
    let done = Done {
        kept: mine.kept && theirs.kept,
        refused: mine.refused.saturating_add(theirs.refused),
        first: mine.first.min(theirs.first),
    };
    (pass, done)
}
