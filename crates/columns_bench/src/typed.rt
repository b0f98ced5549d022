ghost use Rattle.std.specs.Prelude.{◌≡◌, IfOk};
ghost use Rattle.doc_values.specs.Value.{kind_of, IsStorable};
ghost use Rattle.columns_bench.specs.Typed.{kind_by, AreTyped};

use anyhow::Result;
use doc_values::{AttrId, Kind, Utf, Value};
use phys_columns::{Columns, cells_are_a_map};
use std::alloc::Global;

/// The kind of an attribute, by its number.
pub(crate) fn kind_by(id: u32) -> Kind
    ensures { result ≡ kind_by id }
{
    match id % 5 {
        0 => Kind::Int,
        1 => Kind::Bool,
        2 => Kind::Text,
        3 => Kind::Array,
        _ => Kind::Object,
    }
}

/// The value of a kind that a number names.
pub(crate) fn value_by(alloc: Global, kind: Kind, number: i64) -> Result<Value>
    ensures { IfOk result (λ value. (kind_of value ≡ kind) × IsStorable value) }
{
    match kind {
        Kind::Int => Ok(Value::Int(i128::from(number))),
        Kind::Bool => Ok(Value::Bool(number & 1 == 1)),
        Kind::Text => {
            let text = number.to_string(alloc)?;
            Ok(Value::Text(Utf::from(text)))
        }
        Kind::Array => {
            let text = format!(in alloc; "[{number}]")?;
            Ok(Value::Array(Utf::from(text)))
        }
        Kind::Object => Ok(Value::Object),
    }
}

/// Columns without a value.
pub(crate) fn empty(alloc: Global) -> Columns
    ensures { AreTyped result.cells }
{
    Columns::new(alloc)
}

/// Puts the value that a number names in a cell.
pub(crate) fn put(
    columns: &mut Columns,
    alloc: Global,
    id: u32,
    version: u32,
    number: i64,
) -> Result<()>
    requires { AreTyped columns.old.cells }
    ensures { AreTyped columns.new.cells }
{
    cells_are_a_map();
    let kind = kind_by(id);
    let value = value_by(alloc, kind, number)?;
    columns.reserve_cell(AttrId(id), kind, version)?;
    columns.put_cell(AttrId(id), version, value);
    Ok(())
}

/// Takes the value out of a cell.
pub(crate) fn clear(columns: &mut Columns, id: u32, version: u32) -> Option<Value>
    requires { AreTyped columns.old.cells }
    ensures { AreTyped columns.new.cells }
{
    cells_are_a_map();
    columns.clear_cell(AttrId(id), version)
}
