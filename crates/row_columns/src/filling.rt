ghost use Rattle.std.specs.Prelude.{◌≡◌, ℕ, List, [], ◌∷◌, ◌++◌, Some, IfOk, OnErr, length, option_map, string_bytes};
ghost use Rattle.doc_values.specs.declared.value.Value.TheVariants as value;
ghost use Rattle.doc_values.specs.Lent.{owned};
ghost use Rattle.row_columns.specs.Column.{cell_in, IsCellIn, KeepsCells};

use crate::cell::Cell;
use doc_values::{ValueRef, append_text};
use std::alloc::AllocError;

// The cell of a value, whose text or wide number is put behind those of the column.
pub(crate) fn cell_for(
    texts: &mut String,
    wides: &mut Vec<i128>,
    value: Option<ValueRef<'_>>,
) -> Result<Cell, AllocError>
    ensures ok { IfOk result (λ cell. IsCellIn (string_bytes texts.new) wides.new.items cell × (cell_in (string_bytes texts.new) wides.new.items cell ≡ option_map owned value.entry)) }
    ensures kept { KeepsCells (string_bytes texts.old) wides.old.items (string_bytes texts.new) wides.new.items }
{
    match value {
        None => Ok(Cell::Null),
        Some(ValueRef::Bool(b)) => Ok(Cell::Bool(b)),
        Some(ValueRef::Int(n)) => Ok(number_cell(wides, n)?),
        Some(ValueRef::Text(text)) => Ok(Cell::Text(append_text(texts, text)?)),
        Some(ValueRef::Array(text)) => Ok(Cell::Array(append_text(texts, text)?)),
        Some(ValueRef::Object) => Ok(Cell::Object),
    }
}

// Only a computed number can be wide.
fn number_cell(wides: &mut Vec<i128>, number: i128) -> Result<Cell, AllocError>
    ensures ok { (texts : List ℕ) → IfOk result (λ cell. IsCellIn texts wides.new.items cell × (cell_in texts wides.new.items cell ≡ Some (value.Int number))) }
    ensures kept { (texts : List ℕ) → KeepsCells texts wides.old.items texts wides.new.items }
{
    match i64::try_from(number) {
        Ok(number) => Ok(Cell::Number(number)),
        Err(_) => Ok(Cell::Wide(append_number(wides, number)?)),
    }
}

// Puts a number behind the others, and answers its place.
fn append_number(wides: &mut Vec<i128>, number: i128) -> Result<u32, AllocError>
    ensures ok { IfOk result (λ place. (place ≡ length wides.old.items) × (wides.new.items ≡ wides.old.items ++ number ∷ [])) }
    ensures kept { OnErr result (wides.new.items ≡ wides.old.items) }
{
    let Ok(place) = u32::try_from(wides.len()) else {
        return Err(AllocError);
    };
    wides.push(number)?;
    Ok(place)
}
