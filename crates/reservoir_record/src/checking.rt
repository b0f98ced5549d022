ghost use Rattle.std.specs.Prelude.{ℕ, ◌+◌, ◌*◌, ◌≤◌, ◌<◌, ◌≡◌, ◌↔◌, ◌^◌, IsTrue, length};
ghost use Rattle.reservoir_record.specs.Spelling.{IsRecord};
ghost use Rattle.reservoir_record.specs.Words.{HasNumbers, HasOffsets};

use crate::limits::{MOST_BYTES, NUMBERS};
use crate::word::word;

/// Whether the bytes are a record. It may be asked of any bytes whatever.
pub fn check(bytes: &[u8]) -> bool
    ensures exact { IsTrue result ↔ IsRecord bytes.now }
{
    if bytes.len() < 8 {
        return false;
    }
    let count = word(bytes, 0) as usize;
    if bytes.len() < 8 + 8 * count {
        return false;
    }
    has_numbers(bytes, count) && has_offsets(bytes, count)
}

// Whether the numbers ascend.
fn has_numbers(bytes: &[u8], count: usize) -> bool
    requires room { 8 + 8 * count ≤ length bytes.now }
    requires small { count < 2 ^ 32 }
    ensures exact { IsTrue result ↔ HasNumbers bytes.now count }
{
    let mut least = 0;
    for place in 0..count {
        let number = word(bytes, 4 + 4 * place);
        if number < least || number >= NUMBERS {
            return false;
        }
        least = number + 1;
    }
    true
}

// Whether the offsets go from 0 to the length of the values, and never fall.
fn has_offsets(bytes: &[u8], count: usize) -> bool
    requires room { 8 + 8 * count ≤ length bytes.now }
    requires small { count < 2 ^ 32 }
    ensures exact { IsTrue result ↔ HasOffsets bytes.now count }
{
    let offsets = 4 + 4 * count;
    if word(bytes, offsets) != 0 {
        return false;
    }
    let mut end = 0;
    for place in 0..count {
        let next = word(bytes, offsets + 4 * (place + 1));
        if next < end {
            return false;
        }
        end = next;
    }
    end <= MOST_BYTES && 8 + 8 * count + end as usize == bytes.len()
}
