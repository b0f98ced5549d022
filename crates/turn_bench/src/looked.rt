//! A look at a tally when its lock is closed.
use crate::entry::Entry;
use crate::tally::Tally;
use crate::{TURNS, WORKERS};

/// What was found: how many entries, and how many callers took the turns of one worker and of two.
#[derive(Clone, Copy)]
pub struct Looked {
    pub entries: usize,
    pub once: usize,
    pub twice: usize,
}

/// Nothing where some caller's entries are not its turns in their order, each once.
pub fn look(tally: &Tally) -> Option<Looked> {
    let mut next = [0u32; WORKERS as usize];
    for entry in tally.entries.as_slice() {
        follow(&mut next, *entry)?;
    }
    Some(Looked {
        entries: tally.entries.len(),
        once: next.iter().filter(|turns| **turns == TURNS).count(),
        twice: next.iter().filter(|turns| **turns == 2 * TURNS).count(),
    })
}

// The entry is its caller's next one.
fn follow(next: &mut [u32], entry: Entry) -> Option<()> {
    let turns = next.get_mut(entry.caller as usize)?;
    if *turns != entry.number {
        return None;
    }
    *turns = turns.checked_add(1)?;
    Some(())
}
