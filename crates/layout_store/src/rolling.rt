ghost use Rattle.std.specs.Prelude.{◌≡◌, ◌≢◌, ◌<◌, ◌≤◌, ◌+◌, ◌&&◌, ℕ, List, Some, None, true, is_some, nat_le, length, slice_get};
ghost use Rattle.reservoir_record.specs.Finding.{value_of};
ghost use Rattle.doc_values.specs.declared.value.Value.{Value as ValueOf};
ghost use Rattle.attr_catalog.specs.Attribute.{Attribute};
ghost use Rattle.attr_catalog.specs.Catalog.{changed, most_versions};
ghost use Rattle.phys_columns.specs.Cells.{cell_at};
ghost use Rattle.layout_store.specs.Storage.{record_at, either_side};
ghost use Rattle.layout_store.specs.Documents.{count_below};
ghost use Rattle.layout_store.specs.Changes.{AreChanged};
ghost use Rattle.layout_store.specs.Listed.{AreListed, AreListedAt};
ghost use Rattle.layout_store.specs.RolledBack.{held_in, is_reopened, raised_by, lowered_by, raised_if, settled};

use crate::cell_ids::CellIds;
use crate::counting::{lower_all, raise_all};
use crate::record_place::RecordPlace;
use attr_catalog::Catalog;
use doc_values::AttrId;
use phys_columns::{Columns, cells_are_a_map};
use row_versions::{VersionId, Versions};

/// Counts once more what is held by the versions that lose their ends.
pub(crate) fn raise_reopened(
    catalog: &mut Catalog,
    versions: &Versions,
    records: &[RecordPlace],
    columns: &Columns,
    ids: &CellIds,
    commit: u64,
)
    requires known { (version id : ℕ) (bytes : List ℕ) → held_in records.now columns.now.cells version id ≡ Some bytes → id < length catalog.old }
    requires apart { (version id : ℕ) (bytes : List ℕ) → value_of id (record_at version records.now) ≡ Some bytes → cell_at id version columns.now.cells ≡ None }
    requires listed { AreListed ids.now columns.now.cells }
    requires many { length records.now ≡ length versions.now.versions }
    requires room { (id : ℕ) (a : Attribute) → slice_get catalog.old id ≡ Some a → a.count + count_below (λ v. is_reopened commit versions.now.versions v && is_some (held_in records.now columns.now.cells v id)) (length records.now) ≤ most_versions }
    ensures exact { AreChanged (λ id. raised_by (count_below (λ v. is_reopened commit versions.now.versions v && is_some (held_in records.now columns.now.cells v id)) (length records.now))) catalog.old catalog.new }
{
    for version in 0..versions.len() {
        raise_if_reopened(
            catalog,
            versions,
            &records[version as usize],
            columns,
            ids,
            version,
            commit,
        );
    }
}

// Counts once more what a version holds, if it loses its end.
fn raise_if_reopened(
    catalog: &mut Catalog,
    versions: &Versions,
    stored: &RecordPlace,
    columns: &Columns,
    ids: &CellIds,
    version: u32,
    commit: u64,
)
    requires listed { AreListedAt version ids.now columns.now.cells }
    requires celled { (id : ℕ) (value : ValueOf) → cell_at id version columns.now.cells ≡ Some value → id < length catalog.old }
    requires known { (id : ℕ) (bytes : List ℕ) → value_of id stored.now ≡ Some bytes → id < length catalog.old }
    requires apart { (id : ℕ) (bytes : List ℕ) → value_of id stored.now ≡ Some bytes → cell_at id version columns.now.cells ≡ None }
    requires room { is_reopened commit versions.now.versions version ≡ true → (id : ℕ) (a : Attribute) → slice_get catalog.old id ≡ Some a → is_some (either_side (value_of id stored.now) (cell_at id version columns.now.cells)) ≡ true → a.count < most_versions }
    ensures exact { AreChanged (λ id. raised_if (is_reopened commit versions.now.versions version && is_some (either_side (value_of id stored.now) (cell_at id version columns.now.cells)))) catalog.old catalog.new }
{
    if ended_from(versions, version, commit) {
        raise_all(catalog, stored, columns, ids, version);
    }
}

// Whether a version ended at a commit or later.
fn ended_from(versions: &Versions, version: u32, commit: u64) -> bool
    ensures exact { result ≡ is_reopened commit versions.now.versions version }
{
    match versions.end_of(VersionId(version)) {
        Some(end) => commit <= end,
        None => false,
    }
}

/// Counts once less what is held by the versions from a number on, and clears their cells.
pub(crate) fn take_back(
    catalog: &mut Catalog,
    records: &[RecordPlace],
    columns: &mut Columns,
    ids: &CellIds,
    len: u32,
)
    requires listed { AreListed ids.now columns.old.cells }
    requires known { (version id : ℕ) (bytes : List ℕ) → held_in records.now columns.old.cells version id ≡ Some bytes → (version < length records.now) × (id < length catalog.old) }
    requires apart { (version id : ℕ) (bytes : List ℕ) → value_of id (record_at version records.now) ≡ Some bytes → cell_at id version columns.old.cells ≡ None }
    requires within { len ≤ length records.now }
    requires few { length records.now ≤ most_versions }
    requires held { (id : ℕ) (a : Attribute) → slice_get catalog.old id ≡ Some a → count_below (λ v. nat_le len v && is_some (held_in records.now columns.old.cells v id)) (length records.now) ≤ a.count }
    ensures exact { AreChanged (λ id. lowered_by (count_below (λ v. nat_le len v && is_some (held_in records.now columns.old.cells v id)) (length records.now))) catalog.old catalog.new }
    ensures gone { (version id : ℕ) → len ≤ version → cell_at id version columns.new.cells ≡ None }
    ensures kept { (version id : ℕ) → version < len → cell_at id version columns.new.cells ≡ cell_at id version columns.old.cells }
{
    for version in len..records.len() as u32 {
        lower_all(catalog, &records[version as usize], columns, ids, version);
        clear_cells(columns, ids, version);
    }
}

/// Clears the cells of a version.
pub(crate) fn clear_cells(columns: &mut Columns, ids: &CellIds, version: u32)
    requires listed { AreListedAt version ids.now columns.old.cells }
    ensures gone { (id : ℕ) → cell_at id version columns.new.cells ≡ None }
    ensures kept { (w id : ℕ) → w ≢ version → cell_at id w columns.new.cells ≡ cell_at id w columns.old.cells }
{
    cells_are_a_map();
    for place in 0..ids.len() {
        columns.clear_cell(AttrId(ids.id(place)), version);
    }
}

/// Takes the marks away that are not below a number of versions.
pub(crate) fn settle_marks(catalog: &mut Catalog, versions: u32)
    ensures exact { AreChanged (λ id. settled versions) catalog.old catalog.new }
{
    for id in 0..catalog.len() {
        settle_mark(catalog, AttrId(id), versions);
    }
}

// Takes the mark of an attribute away, if it is not below a number of versions. A clean one has none.
fn settle_mark(catalog: &mut Catalog, id: AttrId, versions: u32)
    requires standing { id.0 < length catalog.old }
    ensures exact { catalog.new ≡ changed (settled versions) id catalog.old }
{
    if versions <= catalog.clean_to(id) {
        catalog.clear_dirty(id);
    }
}
