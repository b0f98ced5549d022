use crate::played::Played;
use anyhow::{Result, bail};
use row_versions::{VersionId, Versions};
use std::time::Instant;

const ROUNDS: u32 = 5;

const ASKED: u32 = 1_000_000;

/// Prints the nanoseconds of an append of one of so many rows, of the newest version of a random row of them, and of what a
/// row of one version and one of so many versions shows.
pub(crate) fn time(rt: &HostRuntime, rows: u32) -> Result<()> {
    if rows == 0 {
        bail!("no rows");
    }
    let mut appending = u128::MAX;
    for _ in 0..ROUNDS {
        let start = Instant::now(rt)?;
        let filled = filled(rt, rows)?;
        appending = appending.min(start.elapsed(rt)?.as_nanos());
        if filled.versions().len() != rows {
            bail!("versions are missing");
        }
    }
    let filled = filled(rt, rows)?;
    let newest = time_newest(rt, filled.versions())?;
    let low = time_visible(rt, &tall(rt, 1)?)?;
    let high = time_visible(rt, &tall(rt, 1000)?)?;
    let append = appending / u128::from(rows);
    println!(rt; "{append} {newest} {low} {high}")?;
    Ok(())
}

// So many rows of one version each, each of a commit of its own.
fn filled(rt: &HostRuntime, rows: u32) -> Result<Played> {
    let mut played = Played::new(rt.alloc());
    for row in 0..rows {
        played.append(row, u64::from(row))?;
    }
    Ok(played)
}

// One row of so many versions.
fn tall(rt: &HostRuntime, count: u32) -> Result<Played> {
    let mut played = Played::new(rt.alloc());
    for version in 0..count {
        let commit = u64::from(version);
        if let Some(before) = version.checked_sub(1) {
            played.end(VersionId(before), commit)?;
        }
        played.append(0, commit)?;
    }
    Ok(played)
}

// The nanoseconds of a look-up of the newest version of a row that is drawn at random.
fn time_newest(rt: &HostRuntime, versions: &Versions) -> Result<u128> {
    let rows = versions.rows();
    if rows == 0 {
        bail!("no rows");
    }
    let mut best = u128::MAX;
    for _ in 0..ROUNDS {
        let mut row = 0u32;
        let mut found = 0u32;
        let start = Instant::now(rt)?;
        for _ in 0..ASKED {
            row = row.wrapping_mul(1_664_525).wrapping_add(1_013_904_223);
            if versions.newest((row >> 8) % rows).is_some() {
                found = found.wrapping_add(1);
            }
        }
        best = best.min(start.elapsed(rt)?.as_nanos());
        if found != ASKED {
            bail!("a row has no version");
        }
    }
    Ok(best / u128::from(ASKED))
}

// The nanoseconds of what the one row shows at its newest number.
fn time_visible(rt: &HostRuntime, played: &Played) -> Result<u128> {
    let versions = played.versions();
    let now = played.now();
    if versions.rows() == 0 {
        bail!("no rows");
    }
    let mut best = u128::MAX;
    for _ in 0..ROUNDS {
        let mut found = 0u32;
        let start = Instant::now(rt)?;
        for _ in 0..ASKED {
            if versions.visible(0, now).is_some() {
                found = found.wrapping_add(1);
            }
        }
        best = best.min(start.elapsed(rt)?.as_nanos());
        if found != ASKED {
            bail!("a row has no version");
        }
    }
    Ok(best / u128::from(ASKED))
}
