use crate::played::Played;
use anyhow::{Result, bail};
use row_versions::{VersionId, Versions};

// The version that a row shows, if there is such a row.
fn shown(versions: &Versions, row: u32, n: u64) -> Option<VersionId> {
    if row < versions.rows() {
        versions.visible(row, n)
    } else {
        None
    }
}

/// Prints the version that each row shows after each number of commits.
pub(crate) fn print_table(rt: &HostRuntime, played: &Played) -> Result<()> {
    let versions = played.versions();
    let rows = versions.rows();
    for n in 0..=played.now() {
        print!(rt; " ")?;
        for row in 0..rows {
            print_id(rt, shown(versions, row, n))?;
        }
    }
    Ok(())
}

fn print_id(rt: &HostRuntime, id: Option<VersionId>) -> Result<()> {
    match id {
        Some(id) => {
            let number = id.0;
            print!(rt; "{number}")?;
        }
        None => print!(rt; ".")?,
    }
    Ok(())
}

/// Prints what each commit did to each row.
pub(crate) fn print_changes(rt: &HostRuntime, played: &Played) -> Result<()> {
    for change in played.changes()?.iter() {
        let commit = change.commit;
        let row = change.row;
        print!(rt; " {commit}:{row}:")?;
        print_id(rt, change.before)?;
        print!(rt; ">")?;
        print_id(rt, change.after)?;
    }
    Ok(())
}

/// Takes one commit after the other back, and prints the numbers of versions and rows that are left. Rows have to show
/// below the commit what they did.
pub(crate) fn print_left(rt: &HostRuntime, played: Played) -> Result<()> {
    let mut played = played;
    let rows = played.versions().rows();
    let table = whole_table(rt, &played, rows)?;
    for _ in 0..played.now() {
        if !played.back() {
            break;
        }
        if !shows_as(&played, rows, &table) {
            bail!("a roll back changed what rows show");
        }
        let left = played.versions().len();
        let rows = played.versions().rows();
        print!(rt; " {left}/{rows}")?;
    }
    Ok(())
}

// What rows show after each number of commits.
fn whole_table(rt: &HostRuntime, played: &Played, rows: u32) -> Result<Vec<Option<VersionId>>> {
    let mut table = Vec::new(rt.alloc());
    for n in 0..=played.now() {
        for row in 0..rows {
            table.push(shown(played.versions(), row, n))?;
        }
    }
    Ok(table)
}

// Whether rows show what stands in a table.
fn shows_as(played: &Played, rows: u32, table: &[Option<VersionId>]) -> bool {
    let mut kept = table.iter().copied();
    for n in 0..=played.now() {
        for row in 0..rows {
            if kept.next() != Some(shown(played.versions(), row, n)) {
                return false;
            }
        }
    }
    true
}
