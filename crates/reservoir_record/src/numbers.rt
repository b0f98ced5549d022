ghost use Rattle.std.specs.Prelude.{◌≡◌, ◌+◌, ◌*◌, ◌≤◌, ◌<◌, ◌^◌, length};
ghost use Rattle.std.specs.Ordering.{MatchOrdering};
ghost use Rattle.reservoir_record.specs.Words.{number_at};

use crate::steps::Steps;
use crate::word::word;
use std::cmp::Ordering;
use std::sync::ledger::Ledger;

/// The numbers of a record's fields, for a search. The one way to them is a probe, which is counted.
#[derive(Drop)]
pub(crate) struct Numbers<'a> {
    bytes: &'a [u8],
}

impl<'a> Numbers<'a> {
    pub(crate) fn new(bytes: &'a [u8]) -> Self
        ensures exact { result.bytes.now ≡ bytes.now }
    {
        Numbers { bytes }
    }

    /// How the number of the field at a place compares with a number.
    pub(crate) fn compare<L: Ledger>(&self, place: usize, id: u32, steps: &mut Steps<L>) -> Ordering
        requires { 8 + 4 * place ≤ length self.now.bytes.now }
        ensures exact { MatchOrdering result (number_at self.now.bytes.now place < id) (number_at self.now.bytes.now place ≡ id) (id < number_at self.now.bytes.now place) }
        ensures counted { steps.new ≡ steps.old + 1 }
    {
        steps.tick();
        word(self.bytes, 4 + 4 * place).cmp(&id)
    }
}
