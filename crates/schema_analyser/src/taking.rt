ghost use Rattle.std.specs.Prelude.{◌≡◌, ◌<◌, ◌≤◌, ◌+◌, ℕ, List, Some, All, OnOk, map, length, max};
ghost use Rattle.doc_values.specs.declared.kind.Kind.{Kind as KindOf};
ghost use Rattle.attr_catalog.specs.Paths.{lawful_path, IsLawful};
ghost use Rattle.layout_store.specs.Documents.{document_at};
ghost use Rattle.schema_analyser.specs.Survey.{values_in, values_of, tally_of};
ghost use Rattle.schema_analyser.specs.Tally.{tallied};

use crate::lawful::path_to;
use crate::tally::Tally;
use attr_catalog::Path;
use doc_values::{AttrId, documents_are_maps};
use layout_store::Layout;
use row_versions::VersionId;
use std::alloc::{AllocError, Global};

/// Makes tallies until there are so many.
pub(crate) fn reach(alloc: Global, tallies: &mut Vec<Tally>, len: usize) -> Result<(), AllocError>
    ensures ok { OnOk result (length tallies.new.items ≡ max (length tallies.old.items) len) }
    ensures kept { (id : ℕ) → tally_of id tallies.new.items ≡ tally_of id tallies.old.items }
    ensures few { length tallies.new.items ≤ max (length tallies.old.items) len }
{
    for place in tallies.len()..len {
        tallies.push(Tally::new(alloc))?;
    }
    Ok(())
}

/// Tallies for each attribute the values that some versions hold.
pub(crate) fn take_all(
    alloc: Global,
    layout: &Layout,
    versions: &[VersionId],
    tallies: &mut [Tally],
) -> Result<(), AllocError>
    requires standing { All (λ v. v.0 < length layout.now.history.versions) versions.now }
    requires reached { length layout.now.attributes ≤ length tallies.old }
    requires room { All (λ t. t.count + length versions.now ≤ 4294967295) tallies.old }
    ensures ok { OnOk result ((id : ℕ) → tally_of id tallies.new ≡ tallied (tally_of id tallies.old) (values_of layout.now.attributes id (map (λ v. document_at layout.now v.0) versions.now))) }
    ensures few { (id : ℕ) → (tally_of id tallies.new).count ≤ (tally_of id tallies.old).count + length versions.now }
{
    for id in 0..layout.catalog().len() {
        take_attribute(
            alloc,
            layout,
            versions,
            AttrId(id),
            &mut tallies[id as usize],
        )?;
    }
    Ok(())
}

// Tallies the values of an attribute.
fn take_attribute(
    alloc: Global,
    layout: &Layout,
    versions: &[VersionId],
    id: AttrId,
    tally: &mut Tally,
) -> Result<(), AllocError>
    requires standing { All (λ v. v.0 < length layout.now.history.versions) versions.now }
    requires within { id.0 < length layout.now.attributes }
    requires room { tally.old.count + length versions.now ≤ 4294967295 }
    ensures ok { OnOk result (tally.new ≡ tallied tally.old (values_of layout.now.attributes id.0 (map (λ v. document_at layout.now v.0) versions.now))) }
    ensures few { tally.new.count ≤ tally.old.count + length versions.now }
{
    let path = path_to(layout.catalog(), id);
    take_values(alloc, layout, versions, &path, tally)
}

// Tallies the values along a path.
fn take_values(
    alloc: Global,
    layout: &Layout,
    versions: &[VersionId],
    path: &Path,
    tally: &mut Tally,
) -> Result<(), AllocError>
    requires standing { All (λ v. v.0 < length layout.now.history.versions) versions.now }
    requires lawful { (name : List ℕ) × (of : KindOf) × (path.now ≡ lawful_path name (Some of) layout.now.attributes) }
    requires room { tally.old.count + length versions.now ≤ 4294967295 }
    ensures ok { (name : List ℕ) (of : KindOf) → path.now ≡ lawful_path name (Some of) layout.now.attributes → OnOk result (tally.new ≡ tallied tally.old (values_in name of (map (λ v. document_at layout.now v.0) versions.now))) }
    ensures few { tally.new.count ≤ tally.old.count + length versions.now }
{
    documents_are_maps();
    layout.keeps_the_rules();
    for version in versions {
        if let Some(value) = layout.read(*version, path) {
            tally.add(alloc, value)?;
        }
    }
    Ok(())
}
