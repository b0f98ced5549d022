ghost use Rattle.std.specs.Prelude.{◌≡◌, ◌<◌, ◌≤◌, Some, None, IfOk, OnOk, IfSome, length, map, slice_get};
ghost use Rattle.attr_catalog.specs.Attribute.{cleared};
ghost use Rattle.attr_catalog.specs.Catalog.{changed, most_versions};
ghost use Rattle.layout_store.specs.Shows.{ShowsTheSame};
ghost use Rattle.materialiser.specs.Dirty.{first_dirty, moves_left, versions_left};
ghost use Rattle.materialiser.specs.Steps.{IsRearranged, marked};

use doc_values::AttrId;
use layout_store::Layout;
use row_versions::VersionId;
use std::alloc::AllocError;

/// Moves until nothing is dirty, and answers how many versions were moved.
pub fn settle(layout: &mut Layout) -> Result<u64, AllocError>
    ensures ok { OnOk result (layout.new.attributes ≡ map cleared layout.old.attributes) }
    ensures clean { OnOk result (first_dirty layout.new.attributes ≡ None) }
    ensures moves { IfOk result (λ moves. moves ≡ moves_left layout.old) }
    ensures kept { IsRearranged layout.old layout.new }
    ensures shows { ShowsTheSame layout.old layout.new }
{
    layout.catalog().keeps_the_rules();
    let mut moves = 0;
    for id in 0..layout.catalog().len() {
        moves += settle_one(layout, AttrId(id))?;
    }
    Ok(moves)
}

// Moves all versions of an attribute that are left, and takes its mark away.
fn settle_one(layout: &mut Layout, id: AttrId) -> Result<u64, AllocError>
    requires standing { id.0 < length layout.old.attributes }
    ensures ok { OnOk result (layout.new.attributes ≡ changed cleared id layout.old.attributes) }
    ensures moves { IfOk result (λ moves. IfSome (slice_get layout.old.attributes id.0) (λ a. moves ≡ versions_left (length layout.old.history.versions) a)) }
    ensures few { IfOk result (λ moves. moves ≤ most_versions) }
    ensures kept { IsRearranged layout.old layout.new }
    ensures shows { ShowsTheSame layout.old layout.new }
{
    if !layout.catalog().dirty(id) {
        return Ok(0);
    }
    layout.keeps_the_rules();
    layout.versions().keeps_order();
    let clean_to = layout.catalog().clean_to(id);
    let versions = layout.versions().len();
    move_all(layout, id, clean_to, versions)?;
    layout.clear_dirty(id);
    Ok(u64::from(versions - clean_to))
}

// Moves all versions of a dirty attribute from its mark on.
fn move_all(layout: &mut Layout, id: AttrId, clean_to: u32, versions: u32) -> Result<(), AllocError>
    requires standing { id.0 < length layout.old.attributes }
    requires dirty { IfSome (slice_get layout.old.attributes id.0) (λ a. a.mark ≡ Some clean_to) }
    requires within { clean_to ≤ versions }
    requires all { versions ≡ length layout.old.history.versions }
    ensures ok { OnOk result (layout.new.attributes ≡ changed (marked versions) id layout.old.attributes) }
    ensures kept { IsRearranged layout.old layout.new }
    ensures shows { ShowsTheSame layout.old layout.new }
{
    for version in clean_to..versions {
        layout.move_one(id, VersionId(version))?;
    }
    Ok(())
}
