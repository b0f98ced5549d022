ghost use Rattle.std.specs.Prelude.{ℕ, ◌≡◌, ◌+◌, ◌-◌, ◌*◌, ◌≤◌, ◌<◌, ◌^◌, List, Some, None, true, length, slice_get, option_copied, option_map, IfOk, IfErr};
ghost use Rattle.reservoir_record.specs.Spelling.{Spells, IsRecord};
ghost use Rattle.reservoir_record.specs.Words.{IsWholeTable, value_at};
ghost use Rattle.reservoir_record.specs.Finding.{value_of, StandsAt, FitsAt};
ghost use Rattle.reservoir_record.specs.declared.fields.Field.{Field};

use crate::finding::place;
use crate::numbers::Numbers;
use crate::steps::Steps;
use crate::word::word;
use std::cmp::Ordering;
use std::sync::ledger::{Blank, Ledger};

/// How many fields the record has.
pub fn count(bytes: &[u8]) -> u32
    requires { IsRecord bytes.now }
    ensures exact { (fields : List Field) → Spells fields bytes.now → result ≡ length fields }
    ensures table { IsWholeTable bytes.now result }
{
    word(bytes, 0)
}

/// The field at a place, by the order of the numbers.
pub fn field(bytes: &[u8], place: u32) -> (u32, &[u8])
    requires record_bytes { IsRecord bytes.now }
    requires within { (fields : List Field) → Spells fields bytes.now → place < length fields }
    ensures exact { (fields : List Field) → Spells fields bytes.now → slice_get fields place ≡ Some (record { id = result.0; bytes = result.1.now }) }
{
    let count = count(bytes) as usize;
    let place = place as usize;
    (word(bytes, 4 + 4 * place), value(bytes, count, place))
}

/// The value of the field with a number, found by a binary search whose probes are counted.
pub fn find<'a, L: Ledger>(bytes: &'a [u8], id: u32, steps: &mut Steps<L>) -> Option<&'a [u8]>
    requires { IsRecord bytes.now }
    ensures exact { (fields : List Field) → Spells fields bytes.now → option_copied result ≡ value_of id fields }
    ensures cost { (fields : List Field) → Spells fields bytes.now → 2 ^ (steps.new - steps.old) ≤ 2 * length fields + 1 }
    ensures counted { steps.old ≤ steps.new }
    ensures probed { (fields : List Field) → Spells fields bytes.now → 0 < length fields → steps.old < steps.new }
    ensures least { (fields : List Field) → Spells fields bytes.now → result ≡ None → length fields + 2 ≤ 2 * 2 ^ (steps.new - steps.old) }
{
    let count = count(bytes) as usize;
    match place(&Numbers::new(bytes), count, id, steps) {
        Ok(place) => Some(value(bytes, count, place)),
        Err(_) => None,
    }
}

/// The value of the field with a number, and the place of the field. It is looked for at a guessed place first; its probe
/// is counted too.
pub fn find_near<'a, L: Ledger>(
    bytes: &'a [u8],
    id: u32,
    guess: u32,
    steps: &mut Steps<L>,
) -> Option<(u32, &'a [u8])>
    requires { IsRecord bytes.now }
    ensures exact { (fields : List Field) → Spells fields bytes.now → option_map (λ found. found.1.now) result ≡ value_of id fields }
{
    let count = count(bytes) as usize;
    let numbers = Numbers::new(bytes);
    let guess = guess as usize;
    if stands_at(&numbers, count, guess, id, steps) {
        return Some((guess as u32, value(bytes, count, guess)));
    }
    match place(&numbers, count, id, steps) {
        Ok(place) => Some((place as u32, value(bytes, count, place))),
        Err(_) => None,
    }
}

// Whether the number stands at a place.
fn stands_at<L: Ledger>(
    numbers: &Numbers,
    count: usize,
    place: usize,
    id: u32,
    steps: &mut Steps<L>,
) -> bool
    requires { 8 + 8 * count ≤ length numbers.now.bytes.now }
    ensures exact { result ≡ true → StandsAt numbers.now.bytes.now count id place }
{
    if place >= count {
        return false;
    }
    match numbers.compare(place, id, steps) {
        Ordering::Equal => true,
        _ => false,
    }
}

/// Where the number stands in the record, or where it would.
pub(crate) fn place_with<L: Ledger>(bytes: &[u8], id: u32, blank: Blank) -> Result<usize, usize>
    requires name { blank.name ≡ L.name }
    requires parts { blank.parts ≡ L.parts }
    requires some { blank.parts ≡ 1 }
    requires record_bytes { IsRecord bytes.now }
    ensures found { (fields : List Field) → Spells fields bytes.now → IfOk result (λ k. StandsAt bytes.now (length fields) id k) }
    ensures missing { (fields : List Field) → Spells fields bytes.now → IfErr result (λ k. FitsAt bytes.now (length fields) id k) }
{
    let count = count(bytes) as usize;
    let mut steps = Steps::<L>::new(blank);
    place(&Numbers::new(bytes), count, id, &mut steps)
}

/// The value at a place of a table of so many fields.
pub(crate) fn value(bytes: &[u8], count: usize, place: usize) -> &[u8]
    requires table { IsWholeTable bytes.now count }
    requires within { place < count }
    requires small { count < 2 ^ 32 }
    ensures exact { result.now ≡ value_at bytes.now count place }
{
    let values = 8 + 8 * count;
    let start = word(bytes, 4 + 4 * count + 4 * place) as usize;
    let end = word(bytes, 4 + 4 * count + 4 * (place + 1)) as usize;
    &bytes[values + start..values + end]
}
