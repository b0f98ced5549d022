ghost use Rattle.std.specs.Prelude.{◌≡◌, ◌<◌, ◌≤◌, ◌∷◌, ℕ, List, All, IfOk, OnOk, true, map, length, take};
ghost use Rattle.std.specs.List.{prefix_len};
ghost use Rattle.std.specs.Ordering.{is_lt};
ghost use Rattle.row_columns.specs.Contents.{Output};
ghost use Rattle.exec_finish.specs.Order.{ordered};
ghost use Rattle.exec_finish.specs.Keyed.{HaveKeys, number_order, IsBeyond};

use crate::ordering::compare;
use sql_eval::{CellColumn, KeyPlan};
use std::alloc::{AllocError, Global};

/// The numbers of the first rows in the order of their keys, which lie in columns, no more than so many. Only so many are
/// kept while the rows are gone over, from the last to the first: a row that comes behind all of them is compared once.
pub(crate) fn first_in_order(
    alloc: Global,
    keys: &[KeyPlan],
    columns: &[CellColumn],
    rows: &[u32],
    limit: usize,
) -> Result<Vec<u32>, AllocError>
    ensures ok { (row : ℕ → Output) → HaveKeys columns.now row → IfOk result (λ numbers. map row numbers.items ≡ take limit (ordered (map (λ key. key.descending) keys.now) (map row rows.now))) }
    ensures within { (most : ℕ) → All (λ n. n < most) rows.now → IfOk result (λ numbers. All (λ n. n < most) numbers.items) }
{
    let mut numbers = Vec::new(alloc);
    let mut left = rows.len();
    while left > 0 {
        left -= 1;
        put(keys, columns, rows[left], limit, &mut numbers)?;
    }
    Ok(numbers)
}

// Puts a row before the first of some that stand in order, and keeps no more than the limit.
fn put(
    keys: &[KeyPlan],
    columns: &[CellColumn],
    number: u32,
    limit: usize,
    numbers: &mut Vec<u32>,
) -> Result<(), AllocError>
    ensures ok { OnOk result ((row : ℕ → Output) (rows : List Output) → HaveKeys columns.now row → map row numbers.old.items ≡ take limit (ordered (map (λ key. key.descending) keys.now) rows)
        → map row numbers.new.items ≡ take limit (ordered (map (λ key. key.descending) keys.now) (row number ∷ rows))) }
    ensures within { (most : ℕ) → All (λ n. n < most) numbers.old.items → number < most → All (λ n. n < most) numbers.new.items }
{
    if limit == 0 || is_beyond(keys, columns, number, limit, numbers) {
        return Ok(());
    }
    let place = place_of(keys, columns, number, numbers);
    numbers.insert(place, number)?;
    numbers.truncate(limit);
    Ok(())
}

// Whether there are as many as the limit admits, and the last comes before a row.
fn is_beyond(
    keys: &[KeyPlan],
    columns: &[CellColumn],
    number: u32,
    limit: usize,
    numbers: &[u32],
) -> bool
    ensures exact { result ≡ true → IsBeyond (map (λ key. key.descending) keys.now) columns.now limit number numbers.now }
{
    match numbers.split_last() {
        Some((last, _)) => {
            numbers.len() >= limit && compare(keys, columns, *last, number).is_lt()
        }
        None => false,
    }
}

// The place of the first that does not come before a row; behind all if there is none.
fn place_of(keys: &[KeyPlan], columns: &[CellColumn], number: u32, numbers: &[u32]) -> usize
    ensures exact { result ≡ prefix_len (λ other. is_lt (number_order (map (λ key. key.descending) keys.now) columns.now other number)) numbers.now }
    ensures within { result ≤ length numbers.now }
{
    let mut place = 0;
    while place < numbers.len() && compare(keys, columns, numbers[place], number).is_lt() {
        place += 1;
    }
    place
}
