ghost use Rattle.std.specs.Prelude.{◌≡◌, [], length, OnOk, OnErr};
ghost use Rattle.doc_values.specs.Doc.{with_field, IsDocument};
ghost use Rattle.doc_values.specs.Value.{IsStorable};
ghost use Rattle.doc_values.specs.Lent.{owned};
ghost use Rattle.doc_values.specs.Packed.{fields_in, IsPacked};

use crate::field_cell::FieldCell;
use crate::packing::{field_for, put_field};
use crate::unpacking::place_for;
use crate::value_ref::ValueRef;
use std::alloc::{AllocError, Global};
use std::marker::Model;

/// A document in one body: a small cell for each field, and one text that holds all names and texts. Its memory is used
/// again after `clear`.
#[derive(Drop)]
pub struct PackedDoc {
    texts: String,
    fields: Vec<FieldCell>,
}

impl Model for PackedDoc {
    ghost use Rattle.std.specs.Prelude.{string_bytes};
    ghost use Rattle.doc_values.specs.Doc.{Fields};
    ghost use Rattle.doc_values.specs.Packed.{fields_in, IsPacked};

    ghost Value = { Fields };

    ghost view = { λ d. fields_in (string_bytes d.texts) d.fields.items };

    ghost invariant = { λ d. IsPacked (string_bytes d.texts) d.fields.items };
}

impl PackedDoc {
    pub fn new(alloc: Global) -> PackedDoc
        ensures exact { result ≡ [] }
    {
        PackedDoc {
            texts: String::new(alloc),
            fields: Vec::new(alloc),
        }
    }

    /// Takes all fields away.
    pub fn clear(&mut self)
        ensures exact { self.new ≡ [] }
    {
        self.texts.clear();
        self.fields.clear();
    }

    /// How many fields there are.
    pub fn len(&self) -> usize
        ensures exact { result ≡ length self.now }
        ensures kept { IsDocument self.now }
    {
        self.fields.len()
    }

    /// Puts a value under a name, in place of the one that may stand there.
    pub fn set(&mut self, name: &str, value: ValueRef<'_>) -> Result<(), AllocError>
        requires { IsStorable (owned value) }
        ensures ok { OnOk result (self.new ≡ with_field self.old name.now (owned value.entry)) }
        ensures memory { OnErr result (self.new ≡ self.old) }
        ensures kept { IsDocument self.new }
    {
        let place = place_for(self.texts.as_str(), &self.fields, name);
        let field = field_for(&mut self.texts, name, value)?;
        put_field(&mut self.fields, place, field)?;
        Ok(())
    }

    // The body of the document.
    pub(crate) fn body(&self) -> (&str, &[FieldCell])
        ensures exact { fields_in result.0.now result.1.now ≡ self.now }
        ensures packed { IsPacked result.0.now result.1.now }
    {
        (self.texts.as_str(), self.fields.as_slice())
    }
}
