//! A count of turns, with the entries that were kept of them.
ghost use Rattle.std.specs.Prelude.{◌≡◌, ◌^◌, ◌<◌, [], length};
ghost use Rattle.turn_bench.specs.Grows.{Grows};

use crate::entry::Entry;
use std::alloc::Global;
use turn_lock::Historied;

#[derive(Drop)]
pub struct Tally {
    pub turns: u64,
    pub entries: Vec<Entry>,
}

/// What a turn came to: how many turns there have been, and whether the entry was kept.
#[derive(Clone, Copy)]
pub struct Turned {
    pub turns: u64,
    pub kept: bool,
}

impl Historied for Tally {
    type Entry = Entry;

    ghost history = { λ t. t.entries.items };

    ghost caller_of = { λ e. e.caller };

    fn entries(&self) -> u64 {
        self.entries.len() as u64
    }
}

impl Tally {
    pub fn new(alloc: Global) -> Tally
        ensures { result.entries.items ≡ [] }
    {
        Tally {
            turns: 0,
            entries: Vec::new(alloc),
        }
    }

    /// Counts a turn, and keeps its entry if `keep` says so and memory lasts.
    pub fn count(&mut self, entry: Entry, keep: bool) -> Turned
        ensures grows { Grows entry.caller self.old.entries.items self.new.entries.items }
        ensures short { length self.new.entries.items < 2 ^ 64 }
    {
        self.turns = self.turns.wrapping_add(1);
        let turns = self.turns;
        if !keep {
            return Turned { turns, kept: true };
        }
        match self.entries.push(entry) {
            Ok(()) => Turned { turns, kept: true },
            Err(_) => Turned { turns, kept: false },
        }
    }
}
