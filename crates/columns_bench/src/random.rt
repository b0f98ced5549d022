ghost use Rattle.columns_bench.specs.Typed.{AreTyped};

use crate::reading::shown;
use crate::typed::{clear, empty, kind_by, put, value_by};
use anyhow::{Result, bail};
use doc_values::{AttrId, CompareOp, Kind};
use phys_columns::{Columns, CompareInt, Mask, ValueRef};
use std::alloc::Global;
use std::collections::BTreeMap;

type Numbers = BTreeMap<(u32, u32), i64>;

const IDS: u32 = 25;

const PAGES: [u32; 5] = [0, 1, 2, 7, 4_194_303];

const PLACES: [u32; 8] = [0, 1, 62, 63, 64, 1_022, 1_023, 512];

const OPS: [CompareOp; 6] = [
    CompareOp::Eq,
    CompareOp::Ne,
    CompareOp::Lt,
    CompareOp::Le,
    CompareOp::Gt,
    CompareOp::Ge,
];

/// Runs so many puts and clears on columns and on a map, and compares all that can be read after each and at the end.
pub(crate) fn compare(alloc: Global, seed: u32, count: u32) -> Result<String> {
    let mut columns = empty(alloc);
    let mut numbers = BTreeMap::new(alloc);
    let mut state = seed;
    for _ in 0..count {
        state = stirred(state);
        let id = (state >> 8) % IDS;
        state = stirred(state);
        let version = version_by(state);
        state = stirred(state);
        step(alloc, &mut columns, &mut numbers, id, version, state)?;
    }
    compare_pages(alloc, &columns, &numbers)?;
    Ok(format!(in alloc; "{} cells", numbers.len())?)
}

/// The next of some numbers that follow no pattern.
pub(crate) fn stirred(state: u32) -> u32 {
    state.wrapping_mul(1_664_525).wrapping_add(1_013_904_223)
}

// A version, often at an end of a word or of a page.
fn version_by(state: u32) -> u32 {
    let page = PAGES[((state >> 5) % 5) as usize];
    let place = if state & 4_096 == 0 {
        PLACES[((state >> 13) % 8) as usize]
    } else {
        (state >> 13) % 1_024
    };
    page.wrapping_mul(1_024).wrapping_add(place)
}

// Puts a value in a cell, or in one of three cases takes it out, on both sides, and reads the cell.
fn step(
    alloc: Global,
    columns: &mut Columns,
    numbers: &mut Numbers,
    id: u32,
    version: u32,
    state: u32,
) -> Result<()>
    requires { AreTyped columns.old.cells }
    ensures { AreTyped columns.new.cells }
{
    if (state >> 16) % 3 == 0 {
        let taken = clear(columns, id, version);
        let number = numbers.remove(&(id, version));
        if !is_named(alloc, taken.as_ref().map(ValueRef::of), id, number)? {
            bail!("another value was taken");
        }
    } else {
        let number = i64::from(state) - 2_147_483_648;
        put(columns, alloc, id, version, number)?;
        numbers.insert((id, version), number)?;
    }
    let number = numbers.get(&(id, version)).copied();
    let value = columns.cell_ref(AttrId(id), version);
    if columns.has(AttrId(id), version) != number.is_some()
        || !is_named(alloc, value, id, number)?
    {
        bail!("another value stands in the cell");
    }
    Ok(())
}

// Whether a value is the one that a number names, and there is one exactly where there is a number.
fn is_named(alloc: Global, value: Option<ValueRef>, id: u32, number: Option<i64>) -> Result<bool> {
    let wanted = match number {
        Some(number) => Some(value_by(alloc, kind_by(id), number)?),
        None => None,
    };
    let wanted = shown(alloc, wanted.as_ref().map(ValueRef::of))?;
    Ok(shown(alloc, value)?.as_str() == wanted.as_str())
}

// Compares the walk and the filters of each page with the map.
fn compare_pages(alloc: Global, columns: &Columns, numbers: &Numbers) -> Result<()> {
    let mut walked = 0usize;
    for id in 0..IDS {
        for page in PAGES {
            let count = compare_walk(alloc, columns, numbers, id, page)?;
            walked = walked.wrapping_add(count);
            if matches!(kind_by(id), Kind::Int) {
                compare_filters(columns, numbers, id, page)?;
            }
        }
    }
    if walked != numbers.len() {
        bail!("a walk passes a value over");
    }
    Ok(())
}

// How many values a walk gives, which rise by version and are those of the map.
fn compare_walk(
    alloc: Global,
    columns: &Columns,
    numbers: &Numbers,
    id: u32,
    page: u32,
) -> Result<usize> {
    let mut count = 0usize;
    let mut last = None;
    for (version, value) in columns.walk(AttrId(id), page) {
        if last >= Some(version) || version / 1_024 != page {
            bail!("a walk is out of order");
        }
        if !is_named(alloc, Some(value), id, numbers.get(&(id, version)).copied())? {
            bail!("a walk gives another value");
        }
        last = Some(version);
        count = count.wrapping_add(1);
    }
    Ok(count)
}

// Compares the filters of a page by each sign, and by numbers that stand in it and some that do not.
fn compare_filters(columns: &Columns, numbers: &Numbers, id: u32, page: u32) -> Result<()> {
    let first = number_at(numbers, id, page, 0).unwrap_or(7);
    for op in OPS {
        for with in [0, -1, i64::MIN, i64::MAX, first] {
            let test = CompareInt { op, with };
            let mask = columns.filter_page(AttrId(id), page, test);
            compare_mask(&mask, numbers, id, page, test)?;
        }
    }
    Ok(())
}

fn compare_mask(
    mask: &Mask,
    numbers: &Numbers,
    id: u32,
    page: u32,
    test: CompareInt,
) -> Result<()> {
    for word in 0..16_usize {
        for bit in 0..64_u32 {
            let place = 64 * word as u32 + bit;
            let met = number_at(numbers, id, page, place).is_some_and(|number| test
                .op
                .admits(number.cmp(&test.with)));
            if ((mask.words[word] >> bit) & 1 == 1) != met {
                bail!("a bit of a mask differs");
            }
        }
    }
    Ok(())
}

// The number at a place of a page in the map.
fn number_at(numbers: &Numbers, id: u32, page: u32, place: u32) -> Option<i64> {
    let version = page.wrapping_mul(1_024).wrapping_add(place);
    numbers.get(&(id, version)).copied()
}
