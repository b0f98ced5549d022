ghost use Rattle.std.specs.Prelude.{◌≡◌, true};
ghost use Rattle.sinew_io.specs.Count.{HasCause};
ghost use Rattle.sinew_io.specs.Schedule.{is_failing, schedule_after};

use doc_values::Calls;
use std::marker::Model;

/// Which calls of a device over memory fail, and the counts of its calls and faults.
#[derive(Drop)]
pub(crate) struct Schedule {
    failing: Calls,
    calls: u64,
    faults: u64,
}

impl Model for Schedule {
    ghost use Rattle.sinew_io.specs.Schedule.{Schedule};

    ghost Value = { Schedule };

    ghost view = { λ s. record { failing = s.failing; calls = s.calls; faults = s.faults } };
}

impl Schedule {
    pub(crate) fn new(failing: Calls) -> Self
        ensures exact { result ≡ record { failing = failing; calls = 0; faults = 0 } }
    {
        Schedule {
            failing,
            calls: 0,
            faults: 0,
        }
    }

    /// Counts the next call, and says whether it fails.
    pub(crate) fn next_fails(&mut self) -> bool
        ensures answer { result ≡ is_failing self.old }
        ensures after { self.new ≡ schedule_after self.old }
        ensures cause { HasCause self.old.faults self.new.faults (result ≡ true) }
    {
        let fails = self.is_failing();
        self.calls = self.calls.saturating_add(1);
        if fails {
            self.faults = self.faults.saturating_add(1);
        }
        fails
    }

    /// A call beyond the last number of its type has a number that no list holds.
    fn is_failing(&self) -> bool
        ensures exact { result ≡ is_failing self.now }
    {
        let failing = self.failing.items();
        match self.calls.checked_add(1) {
            Some(number) => failing.contains(&number),
            None => false,
        }
    }
}
