use crate::samples::{Parts, fields_of, list_of, parts_of};
use anyhow::{Result, bail};
use reservoir_record::{build, build_from_parts};
use std::time::Instant;

const ROUNDS: u32 = 5;

const RECORDS: u32 = 20_000;

const FIELDS: u32 = 20;

/// Prints the time of a record of twenty fields: built, built from parts, and as a plain list.
pub(crate) fn time(rt: &HostRuntime) -> Result<()> {
    let fields = fields_of(rt.alloc(), FIELDS)?;
    let parts = parts_of(rt.alloc(), &fields)?;
    let mut built = u128::MAX;
    let mut joined = u128::MAX;
    let mut listed = u128::MAX;
    for _ in 0..ROUNDS {
        let start = Instant::now(rt)?;
        let mut bytes = 0usize;
        for _ in 0..RECORDS {
            bytes = bytes.wrapping_add(build(rt.alloc(), &fields)?.len());
        }
        built = built.min(start.elapsed(rt)?.as_nanos());
        let start = Instant::now(rt)?;
        let mut others = 0usize;
        for _ in 0..RECORDS {
            let record = build_from_parts(rt.alloc(), &parts.ids, &parts.ends, &parts.values)?;
            others = others.wrapping_add(record.len());
        }
        joined = joined.min(start.elapsed(rt)?.as_nanos());
        let start = Instant::now(rt)?;
        let mut lists = 0usize;
        for _ in 0..RECORDS {
            lists = lists.wrapping_add(list_of(rt.alloc(), &fields)?.len());
        }
        listed = listed.min(start.elapsed(rt)?.as_nanos());
        if bytes != others || lists != 20 * 20_000 {
            bail!("other sizes");
        }
    }
    let calls = u128::from(RECORDS);
    println!(rt;
        "build {FIELDS} {} {} {}",
        built / calls,
        joined / calls,
        listed / calls
    )?;
    Ok(())
}
