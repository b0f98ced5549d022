ghost use Rattle.std.specs.Prelude.{◌≡◌, option_map};
ghost use Rattle.doc_values.specs.Lent.{owned};
ghost use Rattle.row_columns.specs.Column.{cell_in, IsCellIn};

use crate::cell::Cell;
use doc_values::{ValueRef, text_in};

// The value of a cell, lent.
pub(crate) fn lent<'a>(texts: &'a str, wides: &[i128], cell: Cell) -> Option<ValueRef<'a>>
    requires { IsCellIn texts.now wides.now cell }
    ensures exact { option_map owned result ≡ cell_in texts.now wides.now cell }
{
    match cell {
        Cell::Null => None,
        Cell::Bool(b) => Some(ValueRef::Bool(b)),
        Cell::Number(n) => Some(ValueRef::Int(i128::from(n))),
        Cell::Wide(place) => Some(ValueRef::Int(wides[place as usize])),
        Cell::Text(span) => Some(ValueRef::Text(text_in(texts, span))),
        Cell::Array(span) => Some(ValueRef::Array(text_in(texts, span))),
        Cell::Object => Some(ValueRef::Object),
    }
}
