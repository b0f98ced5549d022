ghost use Rattle.std.specs.Prelude.{◌≡◌, ◌<◌, ◌≤◌, ◌+◌, ◌-◌, IfOk, All, map, length};
ghost use Rattle.row_versions.specs.History.{rows_of};
ghost use Rattle.layout_store.specs.Documents.{document_at};
ghost use Rattle.schema_analyser.specs.Survey.{documents_between};

use layout_store::Layout;
use row_versions::VersionId;
use std::alloc::{AllocError, Global};

/// The versions that the rows from one number to another show after so many commits, in the order of rows.
pub(crate) fn shown_versions(
    alloc: Global,
    layout: &Layout,
    now: u64,
    from: u32,
    to: u32,
) -> Result<Vec<VersionId>, AllocError>
    requires order { from ≤ to }
    requires within { to ≤ rows_of layout.now.history.versions }
    ensures ok { IfOk result (λ versions. map (λ v. document_at layout.now v.0) versions.items ≡ documents_between layout.now now from to) }
    ensures standing { IfOk result (λ versions. All (λ v. v.0 < length layout.now.history.versions) versions.items) }
    ensures few { IfOk result (λ versions. length versions.items ≤ to - from) }
{
    let shown = layout.versions();
    let mut versions = Vec::new(alloc);
    for row in from..to {
        if let Some(version) = shown.visible(row, now) {
            versions.push(version)?;
        }
    }
    Ok(versions)
}
