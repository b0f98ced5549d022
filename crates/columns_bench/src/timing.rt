ghost use Rattle.std.specs.Prelude.{◌<◌};
ghost use Rattle.columns_bench.specs.Typed.{AreTyped};

use crate::random::stirred;
use crate::typed::{empty, put};
use anyhow::{Result, bail};
use doc_values::{AttrId, CompareOp};
use phys_columns::{Columns, CompareInt, ValueRef};
use std::alloc::Global;
use std::time::Instant;

const ROUNDS: u32 = 5;

// How many readings a round makes, of all values together.
const READINGS: u32 = 4_194_304;

/// Puts so many numbers in the first versions of one attribute, and lets them go.
pub(crate) fn fill(alloc: Global, count: u32) -> Result<String> {
    filled(alloc, count)?;
    Ok("ok".to_string(alloc)?)
}

/// Puts three numbers in each of so many attributes, one in the highest version of two millions, and lets them go.
pub(crate) fn touch(alloc: Global, count: u32) -> Result<String> {
    let mut columns = empty(alloc);
    for place in 0..count {
        let id = place.wrapping_mul(5);
        put(&mut columns, alloc, id, 0, 1)?;
        put(&mut columns, alloc, id, 1, 2)?;
        put(&mut columns, alloc, id, 2_097_151, 3)?;
    }
    Ok("ok".to_string(alloc)?)
}

// Numbers in the first versions of attribute 0.
fn filled(alloc: Global, count: u32) -> Result<Columns> {
    let mut columns = empty(alloc);
    for version in 0..count {
        put(
            &mut columns,
            alloc,
            0,
            version,
            i64::from(version.wrapping_mul(7_919)),
        )?;
    }
    Ok(columns)
}

/// A reading of all values of attribute 0, or of as many.
#[derive(Clone, Copy)]
enum Reading {
    InOrder,
    OutOfOrder,
    Walk,
    Filter,
}

/// The times of a put, of a look-up in order and out of order, of a walk and of a filter, over so many pages that are
/// full of numbers, in picoseconds a value; those of readings are the best of five rounds.
pub(crate) fn time(rt: &HostRuntime, pages: u32) -> Result<String> {
    let pages = pages.clamp(1, READINGS / 1_024);
    let alloc = rt.alloc();
    let start = Instant::now(rt)?;
    let columns = filled(alloc, 1_024 * pages)?;
    let putting = start.elapsed(rt)?.as_nanos();
    let in_order = best(rt, &columns, pages, Reading::InOrder)?;
    let out_of_order = best(rt, &columns, pages, Reading::OutOfOrder)?;
    let walk = best(rt, &columns, pages, Reading::Walk)?;
    let filter = best(rt, &columns, pages, Reading::Filter)?;
    Ok(format!(in alloc;
        "put {} in order {} out of order {} walk {} filter {}",
        putting.saturating_mul(1_000) / u128::from(1_024 * pages),
        each(in_order),
        each(out_of_order),
        each(walk),
        each(filter)
    )?)
}

// The picoseconds of each of the readings of a round.
fn each(nanos: u128) -> u128 {
    nanos.saturating_mul(1_000) / u128::from(READINGS)
}

// The nanoseconds of the fastest of some rounds.
fn best(rt: &HostRuntime, columns: &Columns, pages: u32, reading: Reading) -> Result<u128>
    requires { 0 < pages }
{
    let mut best = u128::MAX;
    for _ in 0..ROUNDS {
        best = best.min(time_once(rt, columns, pages, reading)?);
    }
    Ok(best)
}

fn time_once(rt: &HostRuntime, columns: &Columns, pages: u32, reading: Reading) -> Result<u128>
    requires { 0 < pages }
{
    let start = Instant::now(rt)?;
    let sum = match reading {
        Reading::InOrder => look_in_order(columns, pages),
        Reading::OutOfOrder => look_out_of_order(columns, pages),
        Reading::Walk => walk(columns, pages),
        Reading::Filter => filter(columns, pages),
    };
    let nanos = start.elapsed(rt)?.as_nanos();
    if sum == 0 {
        bail!("nothing was read");
    }
    Ok(nanos)
}

// A number that stands in a cell, or 0.
fn number_at(columns: &Columns, version: u32) -> i128 {
    match columns.cell_ref(AttrId(0), version) {
        Some(ValueRef::Int(number)) => number,
        _ => 0,
    }
}

fn look_in_order(columns: &Columns, pages: u32) -> i128
    requires { 0 < pages }
{
    let versions = pages.saturating_mul(1_024);
    let mut sum = 0i128;
    let mut version = 0;
    for _ in 0..READINGS {
        sum = sum.wrapping_add(number_at(columns, version));
        version = if version >= versions - 1 {
            0
        } else {
            version + 1
        };
    }
    sum
}

fn look_out_of_order(columns: &Columns, pages: u32) -> i128
    requires { 0 < pages }
{
    let versions = u64::from(pages.saturating_mul(1_024));
    let mut state = 1;
    let mut sum = 0i128;
    for _ in 0..READINGS {
        state = stirred(state);
        let version = (u64::from(state) * versions) >> 32;
        sum = sum.wrapping_add(number_at(columns, version as u32));
    }
    sum
}

fn walk(columns: &Columns, pages: u32) -> i128
    requires { 0 < pages }
{
    let mut sum = 0i128;
    for turn in 0..READINGS / 1_024 {
        sum = sum.wrapping_add(walk_page(columns, turn % pages));
    }
    sum
}

fn walk_page(columns: &Columns, page: u32) -> i128 {
    let mut sum = 0i128;
    for (_, value) in columns.walk(AttrId(0), page) {
        if let ValueRef::Int(number) = value {
            sum = sum.wrapping_add(number);
        }
    }
    sum
}

fn filter(columns: &Columns, pages: u32) -> i128
    requires { 0 < pages }
{
    let test = CompareInt {
        op: CompareOp::Lt,
        with: 1_000_000_000,
    };
    let mut sum = 0i128;
    for turn in 0..READINGS / 1_024 {
        let mask = columns.filter_page(AttrId(0), turn % pages, test);
        for word in mask.words {
            sum = sum.wrapping_add(i128::from(word.count_ones()));
        }
    }
    sum
}
