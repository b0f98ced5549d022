ghost use Rattle.std.specs.Prelude.{ℕ, ◌≡◌, ◌+◌, ◌-◌, ◌*◌, ◌≤◌, ◌<◌, ◌^◌, length, List, IfOk, IfErr, option_copied};
ghost use Rattle.reservoir_record.specs.Spelling.{Spells, IsRecord};
ghost use Rattle.reservoir_record.specs.Words.{IsWholeTable, HasNumbers};
ghost use Rattle.reservoir_record.specs.Finding.{value_of, StandsAt, FitsAt};
ghost use Rattle.reservoir_record.specs.declared.fields.Field.{Field};

use crate::numbers::Numbers;
use crate::steps::Steps;
use std::cmp::Ordering;
use std::sync::ledger::Ledger;

/// Where the number stands, or where it would.
pub(crate) fn place<L: Ledger>(
    numbers: &Numbers,
    count: usize,
    id: u32,
    steps: &mut Steps<L>,
) -> Result<usize, usize>
    requires room { 8 + 8 * count ≤ length numbers.now.bytes.now }
    requires ascend { HasNumbers numbers.now.bytes.now count }
    requires small { count < 2 ^ 32 }
    ensures found { IfOk result (λ k. StandsAt numbers.now.bytes.now count id k) }
    ensures missing { IfErr result (λ k. FitsAt numbers.now.bytes.now count id k) }
    ensures cost { 2 ^ (steps.new - steps.old) ≤ 2 * count + 1 }
    ensures counted { steps.old ≤ steps.new }
    ensures probed { 0 < count → steps.old < steps.new }
    ensures least { IfErr result (λ _. count + 2 ≤ 2 * 2 ^ (steps.new - steps.old)) }
{
    let mut low = 0;
    let mut high = count;
    while low < high {
        let middle = low + (high - low) / 2;
        match numbers.compare(middle, id, steps) {
            Ordering::Less => low = middle + 1,
            Ordering::Equal => return Ok(middle),
            Ordering::Greater => high = middle,
        }
    }
    Err(low)
}
