// Fields read in one body.
ghost use Rattle.std.specs.Prelude.{◌≡◌, take, drop, length, MatchResult};
ghost use Rattle.std.specs.List.Sorted.{IsSearchInRange};
ghost use Rattle.doc_values.specs.Lent.{owned};
ghost use Rattle.doc_values.specs.Place.{StandsAt, FitsAt};
ghost use Rattle.doc_values.specs.Spans.{text_at};
ghost use Rattle.doc_values.specs.Packed.{cell_in, IsCellIn, fields_in, IsPacked};

use crate::cell::Cell;
use crate::field_cell::FieldCell;
use crate::span::Span;
use crate::spans::text_in;
use crate::value_ref::ValueRef;

// The value of a cell, lent.
pub(crate) fn lent(texts: &str, cell: Cell) -> ValueRef<'_>
    requires { IsCellIn texts.now cell }
    ensures exact { owned result ≡ cell_in texts.now cell }
{
    match cell {
        Cell::Bool(b) => ValueRef::Bool(b),
        Cell::Number(n) => ValueRef::Int(i128::from(n)),
        Cell::Text(span) => ValueRef::Text(text_in(texts, span)),
        Cell::Array(span) => ValueRef::Array(text_in(texts, span)),
        Cell::Object => ValueRef::Object,
    }
}

// Where a name stands among fields, or where it would. A name that comes last is known at once, since names mostly come in
// their order.
pub(crate) fn place_for(texts: &str, fields: &[FieldCell], name: &str) -> Result<usize, usize>
    requires { IsPacked texts.now fields.now }
    ensures bound { IsSearchInRange result (length fields.now) }
    ensures exact { MatchResult result (StandsAt name.now (fields_in texts.now fields.now)) (FitsAt name.now (fields_in texts.now fields.now)) }
{
    match fields.last() {
        Some(last) if text_in(texts, last.name) < name => Err(fields.len()),
        _ => place(texts.as_bytes(), fields, name.as_bytes()),
    }
}

// The same, by halves.
fn place(texts: &[u8], fields: &[FieldCell], name: &[u8]) -> Result<usize, usize>
    requires { IsPacked texts.now fields.now }
    ensures bound { IsSearchInRange result (length fields.now) }
    ensures exact { MatchResult result (StandsAt name.now (fields_in texts.now fields.now)) (FitsAt name.now (fields_in texts.now fields.now)) }
{
    fields.binary_search_by(|field| part(texts, field.name).cmp(name))
}

// The bytes of a span, or what of them is there.
fn part(texts: &[u8], span: Span) -> &[u8]
    ensures exact { result.now ≡ text_at texts.now span }
{
    let start = span.start as usize;
    let end = span.end as usize;
    front(behind(texts, start), end.saturating_sub(start))
}

fn front(bytes: &[u8], len: usize) -> &[u8]
    ensures exact { result.now ≡ take len bytes.now }
{
    if len < bytes.len() {
        bytes.split_at(len).0
    } else {
        bytes
    }
}

fn behind(bytes: &[u8], len: usize) -> &[u8]
    ensures exact { result.now ≡ drop len bytes.now }
{
    if len < bytes.len() {
        bytes.split_at(len).1
    } else {
        bytes.split_at(bytes.len()).1
    }
}
