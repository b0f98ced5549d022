ghost use Rattle.std.specs.Prelude.{ℕ, List, Option, ◌≡◌, ◌<◌, ◌≤◌, ◌-◌, ◌++◌, All, IfOk, OnOk, length, map, option_map, option_to_list};
ghost use Rattle.doc_values.specs.declared.kind.Kind.{Kind as KindOf};
ghost use Rattle.doc_values.specs.Lent.{owned};
ghost use Rattle.attr_catalog.specs.Paths.{lawful_path, IsLawful};
ghost use Rattle.row_versions.specs.History.{visible};
ghost use Rattle.sql_eval.specs.Meaning.{given};
ghost use Rattle.scan_batches.specs.Scans.{documents_below};
ghost use Rattle.scan_batches.specs.Reading.{document_in, path_for};

use attr_catalog::{Catalog, Path};
use doc_values::{ColRef, ValueRef};
use layout_store::Layout;
use query_rewrite::path;
use row_versions::VersionId;
use std::alloc::{AllocError, Global};

/// The versions that the rows from one number below another show after so many commits.
pub(crate) fn seen(
    alloc: Global,
    layout: &Layout,
    at: u64,
    from: u32,
    to: u32,
) -> Result<Vec<VersionId>, AllocError>
    requires { from ≤ to }
    ensures ok { IfOk result (λ seen. documents_below layout.now at to ≡ documents_below layout.now at from ++ map (document_in layout.now) seen.items) }
    ensures few { IfOk result (λ seen. length seen.items ≤ to - from) }
    ensures standing { IfOk result (λ seen. All (λ v. v.0 < length layout.now.history.versions) seen.items) }
{
    let mut seen = Vec::with_capacity(alloc, (to - from) as usize)?;
    for row in from..to {
        push_seen(&mut seen, seen_in(layout, row, at))?;
    }
    Ok(seen)
}

// The version that a row shows after so many commits, if there is such a row.
fn seen_in(layout: &Layout, row: u32, at: u64) -> Option<VersionId>
    ensures exact { result ≡ visible row at layout.now.history.versions }
{
    if row < layout.versions().rows() {
        layout.versions().visible(row, at)
    } else {
        None
    }
}

// Puts a version behind others, if there is one.
fn push_seen(seen: &mut Vec<VersionId>, version: Option<VersionId>) -> Result<(), AllocError>
    ensures ok { OnOk result (seen.new.items ≡ seen.old.items ++ option_to_list version) }
{
    if let Some(version) = version {
        seen.push(version)?;
    }
    Ok(())
}

/// The path of each column now.
pub(crate) fn paths(
    alloc: Global,
    catalog: &Catalog,
    refs: &[ColRef],
) -> Result<Vec<Path>, AllocError>
    ensures ok { IfOk result (λ paths. paths.items ≡ map (path_for catalog.now) refs.now) }
{
    let mut paths = Vec::with_capacity(alloc, refs.len())?;
    for column in refs {
        paths.push(path(catalog, column))?;
    }
    Ok(paths)
}

/// The value that a version's document gives for the column of a path, lent.
pub(crate) fn value_along<'a>(
    layout: &'a Layout,
    version: VersionId,
    path: &Path,
) -> Option<ValueRef<'a>>
    requires standing { version.0 < length layout.now.history.versions }
    requires lawful { IsLawful layout.now.attributes path.now }
    ensures exact { (name : List ℕ) (wanted : Option KindOf) → path.now ≡ lawful_path name wanted layout.now.attributes → option_map owned result ≡ given name wanted (document_in layout.now version) }
{
    layout.read(version, path)
}
