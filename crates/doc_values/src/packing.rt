// Fields put into one body.
ghost use Rattle.std.specs.Prelude.{◌≡◌, ◌≤◌, IfOk, OnOk, OnErr, length, slice_range, string_bytes};
ghost use Rattle.std.specs.List.Sorted.{IsSearchInRange};
ghost use Rattle.doc_values.specs.Value.{IsStorable};
ghost use Rattle.doc_values.specs.Lent.{owned};
ghost use Rattle.doc_values.specs.Spans.{KeepsSpans};
ghost use Rattle.doc_values.specs.Packed.{cell_in, IsCellIn, field_in, IsFieldIn, put_at, KeepsRanges};

use crate::cell::Cell;
use crate::field_cell::FieldCell;
use crate::spans::append_text;
use crate::value_ref::ValueRef;
use std::alloc::AllocError;

/// The most fields that lie behind one another.
const MOST_FIELDS: usize = 4294967295;

// The field of a name and a value, whose texts are put behind the others.
pub(crate) fn field_for(
    texts: &mut String,
    name: &str,
    value: ValueRef<'_>,
) -> Result<FieldCell, AllocError>
    requires { IsStorable (owned value) }
    ensures ok { IfOk result (λ f. IsFieldIn (string_bytes texts.new) f × (field_in (string_bytes texts.new) f ≡ (name.now, owned value.entry))) }
    ensures kept { KeepsSpans (string_bytes texts.old) (string_bytes texts.new) }
{
    let span = append_text(texts, name)?;
    let cell = cell_for(texts, value)?;
    Ok(FieldCell {
        name: span,
        value: cell,
    })
}

// The cell of a value, whose text is put behind the others.
fn cell_for(texts: &mut String, value: ValueRef<'_>) -> Result<Cell, AllocError>
    requires { IsStorable (owned value) }
    ensures ok { IfOk result (λ cell. IsCellIn (string_bytes texts.new) cell × (cell_in (string_bytes texts.new) cell ≡ owned value.entry)) }
    ensures kept { KeepsSpans (string_bytes texts.old) (string_bytes texts.new) }
{
    match value {
        ValueRef::Bool(b) => Ok(Cell::Bool(b)),
        ValueRef::Int(n) => match i64::try_from(n) {
            Ok(n) => Ok(Cell::Number(n)),
            Err(_) => unreachable!(),
        },
        ValueRef::Text(text) => Ok(Cell::Text(append_text(texts, text)?)),
        ValueRef::Array(text) => Ok(Cell::Array(append_text(texts, text)?)),
        ValueRef::Object => Ok(Cell::Object),
    }
}

// Puts a field where a search said that it belongs.
pub(crate) fn put_field(
    fields: &mut Vec<FieldCell>,
    place: Result<usize, usize>,
    field: FieldCell,
) -> Result<(), AllocError>
    requires { IsSearchInRange place (length fields.old.items) }
    ensures ok { OnOk result (fields.new.items ≡ put_at fields.old.items place field) }
    ensures memory { OnErr result (fields.new.items ≡ fields.old.items) }
{
    match place {
        Ok(place) => fields[place] = field,
        Err(place) => fields.insert(place, field)?,
    }
    Ok(())
}

// Puts fields behind others, and answers from where to where they lie.
pub(crate) fn append_fields(
    fields: &mut Vec<FieldCell>,
    more: &[FieldCell],
) -> Result<(u32, u32), AllocError>
    ensures ok { IfOk result (λ at. (at.0 ≤ at.1) × (at.1 ≤ length fields.new.items) × (slice_range fields.new.items at.0 at.1 ≡ more.now)) }
    ensures kept { KeepsRanges fields.old.items fields.new.items }
{
    let first = fields.len();
    if first > MOST_FIELDS || more.len() > MOST_FIELDS - first {
        return Err(AllocError);
    }
    fields.extend_from_slice(more)?;
    let last = fields.len();
    Ok((first as u32, last as u32))
}
