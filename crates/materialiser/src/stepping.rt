ghost use Rattle.std.specs.Prelude.{ℕ, ◌≡◌, ◌<◌, ◌↔◌, true, Ok, Some, None, IfOk, OnErr, IfSome, option_map, slice_get};
ghost use Rattle.attr_catalog.specs.Catalog.{number};
ghost use Rattle.layout_store.specs.Shows.{ShowsTheSame};
ghost use Rattle.materialiser.specs.Dirty.{first_dirty, is_dirty, AreCleanBelow};
ghost use Rattle.materialiser.specs.Steps.{HasDone, IsMoved};

use crate::moved::Moved;
use attr_catalog::Catalog;
use doc_values::AttrId;
use layout_store::Layout;
use row_versions::VersionId;
use std::alloc::AllocError;

/// Moves one version, or takes one mark away. It goes over the attributes up to the first that is dirty: who steps many
/// times keeps how many are clean, by `step_from`.
pub fn step(layout: &mut Layout) -> Result<Moved, AllocError>
    ensures ok { IfOk result (λ moved. HasDone moved layout.old layout.new) }
    ensures nothing { (result ≡ Ok Moved.Nothing) ↔ (first_dirty layout.old.attributes ≡ None) }
    ensures mark { (result ≡ Ok Moved.Mark) ↔ IsMoved layout.old }
    ensures shows { ShowsTheSame layout.old layout.new }
    ensures memory { OnErr result (layout.new ≡ layout.old) }
{
    let mut clean = 0;
    step_from(layout, &mut clean)
}

/// The same where so many attributes are known to be clean, of which none is looked at; and then how many are.
pub fn step_from(layout: &mut Layout, clean: &mut u32) -> Result<Moved, AllocError>
    requires clean { AreCleanBelow clean.old layout.old.attributes }
    ensures clean { AreCleanBelow clean.new layout.new.attributes }
    ensures ok { IfOk result (λ moved. HasDone moved layout.old layout.new) }
    ensures nothing { (result ≡ Ok Moved.Nothing) ↔ (first_dirty layout.old.attributes ≡ None) }
    ensures mark { (result ≡ Ok Moved.Mark) ↔ IsMoved layout.old }
    ensures shows { ShowsTheSame layout.old layout.new }
    ensures memory { OnErr result (layout.new ≡ layout.old) }
{
    let Some(id) = first_from(layout.catalog(), *clean) else {
        return Ok(Moved::Nothing);
    };
    *clean = id.0;
    step_at(layout, id)
}

// The first dirty attribute, where those below a number are clean.
fn first_from(catalog: &Catalog, from: u32) -> Option<AttrId>
    requires { AreCleanBelow from catalog.now }
    ensures exact { result ≡ option_map number (first_dirty catalog.now) }
    ensures dirty { IfSome result (λ id. option_map is_dirty (slice_get catalog.now id.0) ≡ Some true) }
    ensures clean { IfSome result (λ id. AreCleanBelow id.0 catalog.now) }
{
    for id in from..catalog.len() {
        if catalog.dirty(AttrId(id)) {
            return Some(AttrId(id));
        }
    }
    None
}

// A step of the first dirty attribute.
fn step_at(layout: &mut Layout, id: AttrId) -> Result<Moved, AllocError>
    requires first { first_dirty layout.old.attributes ≡ Some id.0 }
    requires dirty { option_map is_dirty (slice_get layout.old.attributes id.0) ≡ Some true }
    ensures below { (i : ℕ) → i < id.0 → slice_get layout.new.attributes i ≡ slice_get layout.old.attributes i }
    ensures ok { IfOk result (λ moved. HasDone moved layout.old layout.new) }
    ensures some { (result ≡ Ok Moved.Nothing) → ⊥ }
    ensures mark { (result ≡ Ok Moved.Mark) ↔ IsMoved layout.old }
    ensures shows { ShowsTheSame layout.old layout.new }
    ensures memory { OnErr result (layout.new ≡ layout.old) }
{
    layout.keeps_the_rules();
    let clean_to = layout.catalog().clean_to(id);
    if clean_to == layout.versions().len() {
        layout.clear_dirty(id);
        return Ok(Moved::Mark);
    }
    layout.move_one(id, VersionId(clean_to))?;
    Ok(Moved::Row)
}
