ghost use Rattle.std.specs.Prelude.{◌≡◌, ◌<◌, ◌≤◌, ◌+◌, None, IfSome, IsSome, OnOk, OnErr, length, slice_get};
ghost use Rattle.attr_catalog.specs.Catalog.{changed, most_versions};
ghost use Rattle.doc_values.specs.Value.{IsStorable};
ghost use Rattle.reservoir_record.specs.Spelling.{values, AreFields};
ghost use Rattle.reservoir_record.specs.Finding.{value_of};
ghost use Rattle.phys_columns.specs.Cells.{cell_at, AreOfKind};
ghost use Rattle.document_records.specs.StoredValue.{bytes_of, AreReadable};
ghost use Rattle.layout_store.specs.Changes.{stepped};
ghost use Rattle.layout_store.specs.Moved.{HasMovedOut, HasMovedIn, HasMovedTo};

use crate::record_place::RecordPlace;
use attr_catalog::{Catalog, Home};
use doc_values::{AttrId, Kind};
use document_records::read_value;
use phys_columns::Columns;
use std::alloc::{AllocError, Global};

/// Moves what stands of an attribute on the other side than its home.
pub(crate) fn move_home(
    alloc: Global,
    home: Home,
    kind: Kind,
    stored: &mut RecordPlace,
    columns: &mut Columns,
    id: AttrId,
    version: u32,
) -> Result<(), AllocError>
    requires readable { IfSome (value_of id.0 stored.old) (AreReadable kind) }
    requires alike { AreOfKind id.0 kind columns.old.cells }
    requires small { id.0 < 65536 }
    requires storable { IfSome (cell_at id.0 version columns.old.cells) IsStorable }
    requires absent { IfSome (cell_at id.0 version columns.old.cells) (λ _. value_of id.0 stored.old ≡ None) }
    requires fit { AreFields stored.old → IfSome (cell_at id.0 version columns.old.cells) (λ value. length (values stored.old) + length (bytes_of value) ≤ 16777216) }
    ensures ok { OnOk result (HasMovedTo home kind id.0 version stored.old stored.new columns.old.cells columns.new.cells) }
    ensures memory { OnErr result ((stored.new ≡ stored.old) × (columns.new.cells ≡ columns.old.cells)) }
{
    let _kept = stored.len();
    match home {
        Home::Column => {
            move_out(alloc, kind, stored, columns, id, version)?;
            Ok(())
        }
        Home::Reservoir => {
            move_in(alloc, stored, columns, id, version)?;
            Ok(())
        }
    }
}

/// Knows one version more of an attribute to be clean, where its mark stands at this one.
pub(crate) fn step_mark(catalog: &mut Catalog, id: AttrId, version: u32)
    requires standing { id.0 < length catalog.old }
    requires dirty { IfSome (slice_get catalog.old id.0) (λ a. IsSome a.mark) }
    requires room { version < most_versions }
    ensures exact { catalog.new ≡ changed (stepped version) id catalog.old }
{
    if catalog.clean_to(id) == version {
        catalog.advance(id);
    }
}

// Moves what a record has of an attribute to the cell.
fn move_out(
    alloc: Global,
    kind: Kind,
    stored: &mut RecordPlace,
    columns: &mut Columns,
    id: AttrId,
    version: u32,
) -> Result<(), AllocError>
    requires readable { IfSome (value_of id.0 stored.old) (AreReadable kind) }
    requires alike { AreOfKind id.0 kind columns.old.cells }
    ensures ok { OnOk result (HasMovedOut kind id.0 version (value_of id.0 stored.old) stored.old stored.new columns.old.cells columns.new.cells) }
    ensures memory { OnErr result ((stored.new ≡ stored.old) × (columns.new.cells ≡ columns.old.cells)) }
{
    let Some(bytes) = stored.find(id.0) else {
        return Ok(());
    };
    let value = read_value(alloc, kind, bytes)?;
    columns.reserve_cell(id, kind, version)?;
    columns.put_cell(id, version, value);
    stored.remove(id.0);
    Ok(())
}

// Moves what a cell has to the record.
fn move_in(
    alloc: Global,
    stored: &mut RecordPlace,
    columns: &mut Columns,
    id: AttrId,
    version: u32,
) -> Result<(), AllocError>
    requires small { id.0 < 65536 }
    requires storable { IfSome (cell_at id.0 version columns.old.cells) IsStorable }
    requires absent { IfSome (cell_at id.0 version columns.old.cells) (λ _. value_of id.0 stored.old ≡ None) }
    requires fit { IfSome (cell_at id.0 version columns.old.cells) (λ value. length (values stored.old) + length (bytes_of value) ≤ 16777216) }
    ensures ok { OnOk result (HasMovedIn id.0 version (cell_at id.0 version columns.old.cells) stored.old stored.new columns.old.cells columns.new.cells) }
    ensures memory { OnErr result ((stored.new ≡ stored.old) × (columns.new.cells ≡ columns.old.cells)) }
{
    let Some(value) = columns.cell_ref(id, version) else {
        return Ok(());
    };
    stored.put(alloc, id.0, value)?;
    columns.clear_cell(id, version);
    Ok(())
}
