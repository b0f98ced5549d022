ghost use Rattle.std.specs.Prelude.{◌≡◌, ◌<◌, ◌≤◌, ◌+◌, All, IfOk, OnOk, false, length, map};
ghost use Rattle.query_meaning.specs.Plans.{at_most};
ghost use Rattle.scan_batches.specs.Scans.{CanBeTested, has_enough, is_as_many};
ghost use Rattle.scan_batches.specs.Reading.{path_for, room_for, wanted};

use crate::finding::{paths, seen};
use crate::read_rows::ReadRows;
use crate::testing::kept;
use attr_catalog::Path;
use doc_values::ColRef;
use layout_store::Layout;
use row_versions::VersionId;
use sql_eval::Expr;
use std::alloc::AllocError;

/// How many rows are looked at before what is wanted of them is read.
const ROWS_AT_ONCE: u32 = 1024;

/// Reads what is wanted of the rows from one number below another, up to the row behind which no more are needed.
pub(crate) fn read_on(
    layout: &Layout,
    at: u64,
    refs: &[ColRef],
    test: &Option<Expr>,
    most: Option<u64>,
    rows: &mut ReadRows,
    from: u32,
    to: u32,
) -> Result<u32, AllocError>
    requires order { from ≤ to }
    requires width { rows.old.width ≡ length refs.now }
    requires tested { CanBeTested test.now }
    ensures read { IfOk result (λ reached. rows.old.rows ≡ wanted layout.now at refs.now rows.old.whole test.now most from → rows.new.rows ≡ wanted layout.now at refs.now rows.old.whole test.now most reached) }
    ensures within { IfOk result (λ reached. (from ≤ reached) × (reached ≤ to)) }
    ensures all { IfOk result (λ reached. has_enough most rows.new.rows ≡ false → reached ≡ to) }
    ensures width { rows.new.width ≡ rows.old.width }
    ensures whole { rows.new.whole ≡ rows.old.whole }
{
    let paths = paths(rows.alloc(), layout.catalog(), refs)?;
    let mut next = from;
    while next < to && !is_enough(most, rows.len()) {
        let end = next + ROWS_AT_ONCE.min(to - next);
        read_some(layout, at, refs, &paths, test, most, rows, next, end)?;
        next = end;
    }
    Ok(next)
}

/// Whether so many rows are as many as are needed at most.
pub(crate) fn is_enough(most: Option<u64>, rows: u32) -> bool
    ensures exact { result ≡ is_as_many most rows }
{
    match most {
        Some(most) => most <= u64::from(rows),
        None => false,
    }
}

// Reads what is wanted of the rows from one number below another, where more rows are needed.
fn read_some(
    layout: &Layout,
    at: u64,
    refs: &[ColRef],
    paths: &[Path],
    test: &Option<Expr>,
    most: Option<u64>,
    rows: &mut ReadRows,
    from: u32,
    to: u32,
) -> Result<(), AllocError>
    requires order { from ≤ to }
    requires few { to ≤ from + 1024 }
    requires paths { paths.now ≡ map (path_for layout.now.attributes) refs.now }
    requires width { rows.old.width ≡ length refs.now }
    requires tested { CanBeTested test.now }
    requires room { has_enough most rows.old.rows ≡ false }
    ensures read { OnOk result (rows.old.rows ≡ wanted layout.now at refs.now rows.old.whole test.now most from → rows.new.rows ≡ wanted layout.now at refs.now rows.old.whole test.now most to) }
    ensures width { rows.new.width ≡ rows.old.width }
    ensures whole { rows.new.whole ≡ rows.old.whole }
{
    let alloc = rows.alloc();
    let seen = seen(alloc, layout, at, from, to)?;
    let mut kept = kept(alloc, layout, refs, paths, test, seen)?;
    cut(&mut kept, most, rows.len());
    rows.append(layout, refs, paths, &kept)?;
    Ok(())
}

// Leaves no more versions than there is room for behind so many rows.
fn cut(versions: &mut Vec<VersionId>, most: Option<u64>, rows: u32)
    ensures exact { versions.new.items ≡ at_most (room_for most rows) versions.old.items }
{
    if let Some(most) = most {
        let room = most.saturating_sub(u64::from(rows));
        versions.truncate(room.min(versions.len() as u64) as usize);
    }
}
