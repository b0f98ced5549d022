ghost use Rattle.std.specs.Prelude.{◌≡◌, ◌<◌, ◌≤◌};
ghost use Rattle.reservoir_record.specs.Spelling.{IsRecord};

use crate::samples::{fields_of, list_of};
use anyhow::{Result, bail};
use reservoir_record::{Steps, build, check, find};
use std::marker::Brand;
use std::sync::ledger::{Blank, Ledger};
use std::time::Instant;

const ROUNDS: u32 = 5;

const LOOKUPS: u32 = 100_000;

/// Prints the time of a look-up among so many fields.
pub(crate) fn time(rt: &HostRuntime, count: u32) -> Result<()>
    requires some { 0 < count }
    requires few { count ≤ 4096 }
{
    let fields = fields_of(rt.alloc(), count)?;
    let list = list_of(rt.alloc(), &fields)?;
    let bytes = build(rt.alloc(), &fields)?;
    if !check(&bytes) {
        bail!("no record");
    }
    let mut record = u128::MAX;
    let mut halved = u128::MAX;
    let mut scanned = u128::MAX;
    for _ in 0..ROUNDS {
        let start = Instant::now(rt)?;
        let sum = find_in_record(&bytes, count);
        record = record.min(start.elapsed(rt)?.as_nanos());
        let start = Instant::now(rt)?;
        let other = find_by_halves(&list, count);
        halved = halved.min(start.elapsed(rt)?.as_nanos());
        let start = Instant::now(rt)?;
        let third = find_by_scan(&list, count);
        scanned = scanned.min(start.elapsed(rt)?.as_nanos());
        if sum != other || sum != third {
            bail!("other values");
        }
    }
    let calls = u128::from(LOOKUPS);
    println!(rt;
        "find {count} {} {} {}",
        record / calls,
        halved / calls,
        scanned / calls
    )?;
    Ok(())
}

// The next of some numbers that follow no pattern.
fn stirred(state: u32) -> u32 {
    state.wrapping_mul(1_664_525).wrapping_add(1_013_904_223)
}

// The first bytes of the values that are found, added up.
fn find_in_record(bytes: &[u8], count: u32) -> u64
    requires record_bytes { IsRecord bytes.now }
    requires some { 0 < count }
{
    let mut state = 1;
    let mut sum = 0u64;
    for _ in 0..LOOKUPS {
        state = stirred(state);
        if let Some([first, ..]) = found(bytes, (state >> 8) % count) {
            sum = sum.wrapping_add(u64::from(*first));
        }
    }
    sum
}

fn find_by_halves(list: &[(u32, Vec<u8>)], count: u32) -> u64
    requires { 0 < count }
{
    let mut state = 1;
    let mut sum = 0u64;
    for _ in 0..LOOKUPS {
        state = stirred(state);
        let id = (state >> 8) % count;
        if let Ok(place) = list.binary_search_by(|entry| entry.0.cmp(&id)) {
            sum = sum.wrapping_add(first_of(list, place));
        }
    }
    sum
}

fn find_by_scan(list: &[(u32, Vec<u8>)], count: u32) -> u64
    requires { 0 < count }
{
    let mut state = 1;
    let mut sum = 0u64;
    for _ in 0..LOOKUPS {
        state = stirred(state);
        let id = (state >> 8) % count;
        if let Some(place) = list.iter().position(|entry| entry.0 == id) {
            sum = sum.wrapping_add(first_of(list, place));
        }
    }
    sum
}

fn first_of(list: &[(u32, Vec<u8>)], place: usize) -> u64 {
    match list.get(place) {
        Some(entry) => match entry.1.first() {
            Some(first) => u64::from(*first),
            None => 0,
        },
        None => 0,
    }
}

fn found(bytes: &[u8], id: u32) -> Option<&[u8]>
    requires { IsRecord bytes.now }
{
    found_with::<Brand>(bytes, id, Blank::new(1))
}

fn found_with<'a, L: Ledger>(bytes: &'a [u8], id: u32, blank: Blank) -> Option<&'a [u8]>
    requires name { blank.name ≡ L.name }
    requires parts { blank.parts ≡ L.parts }
    requires some { blank.parts ≡ 1 }
    requires record_bytes { IsRecord bytes.now }
{
    let mut steps = Steps::<L>::new(blank);
    find(bytes, id, &mut steps)
}
