ghost use Rattle.std.specs.Prelude.{◌≡◌, ◌<◌, Some, length, slice_get};
ghost use Rattle.doc_values.specs.Doc.{IsDocument};
ghost use Rattle.doc_values.specs.Lent.{owned};
ghost use Rattle.doc_values.specs.Packed.{fields_in, IsPacked};

use crate::field_cell::FieldCell;
use crate::spans::text_in;
use crate::unpacking::lent;
use crate::value_ref::ValueRef;
use std::marker::Model;

/// A document that is lent.
#[derive(Drop)]
pub struct DocRef<'a> {
    texts: &'a str,
    fields: &'a [FieldCell],
}

impl<'a> Model for DocRef<'a> {
    ghost use Rattle.doc_values.specs.Doc.{Fields};
    ghost use Rattle.doc_values.specs.Packed.{fields_in, IsPacked};

    ghost Value = { Fields };

    ghost view = { λ d. fields_in d.texts.now d.fields.now };

    ghost invariant = { λ d. IsPacked d.texts.now d.fields.now };
}

impl<'a> DocRef<'a> {
    // The document of a body.
    pub(crate) fn of(texts: &'a str, fields: &'a [FieldCell]) -> DocRef<'a>
        requires { IsPacked texts.now fields.now }
        ensures exact { result ≡ fields_in texts.now fields.now }
    {
        DocRef { texts, fields }
    }

    /// How many fields there are.
    pub fn len(&self) -> usize
        ensures exact { result ≡ length self.now }
        ensures kept { IsDocument self.now }
    {
        self.fields.len()
    }

    /// The field at a place, by the order of the names.
    pub fn field(&self, place: usize) -> (&'a str, ValueRef<'a>)
        requires { place < length self.now }
        ensures exact { slice_get self.now place ≡ Some (result.0.now, owned result.1) }
        ensures kept { IsDocument self.now }
    {
        field_at(self.texts, self.fields, place)
    }
}

fn field_at<'a>(texts: &'a str, fields: &'a [FieldCell], place: usize) -> (&'a str, ValueRef<'a>)
    requires within { place < length fields.now }
    requires packed { IsPacked texts.now fields.now }
    ensures exact { slice_get (fields_in texts.now fields.now) place ≡ Some (result.0.now, owned result.1) }
{
    let field = fields[place];
    (text_in(texts, field.name), lent(texts, field.value))
}
