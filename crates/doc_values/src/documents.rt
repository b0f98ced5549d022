ghost use Rattle.std.specs.Prelude.{◌≡◌, ◌∷◌, ◌++◌, ◌<◌, [], Some, OnOk, OnErr, length, slice_get};
ghost use Rattle.doc_values.specs.Packed.{document_in, IsPlaced};

use crate::doc_place::DocPlace;
use crate::doc_ref::DocRef;
use crate::field_cell::FieldCell;
use crate::packed_doc::PackedDoc;
use crate::packing::append_fields;
use crate::spans::{append_text, text_in};
use std::alloc::{AllocError, Global};
use std::marker::Model;

/// Documents behind one another in one body.
#[derive(Drop)]
pub struct Documents {
    texts: String,
    fields: Vec<FieldCell>,
    places: Vec<DocPlace>,
}

impl Model for Documents {
    ghost use Rattle.std.specs.Prelude.{List, All, map, string_bytes};
    ghost use Rattle.doc_values.specs.Doc.{Fields};
    ghost use Rattle.doc_values.specs.Packed.{document_in, IsPlaced};

    ghost Value = { List Fields };

    ghost view = { λ d. map (document_in (string_bytes d.texts) d.fields.items) d.places.items };

    ghost invariant = { λ d. All (IsPlaced (string_bytes d.texts) d.fields.items) d.places.items };
}

impl Documents {
    /// No documents.
    pub fn new(alloc: Global) -> Documents
        ensures exact { result ≡ [] }
    {
        Documents {
            texts: String::new(alloc),
            fields: Vec::new(alloc),
            places: Vec::new(alloc),
        }
    }

    /// How many documents there are.
    pub fn len(&self) -> usize
        ensures exact { result ≡ length self.now }
    {
        self.places.len()
    }

    /// Puts a copy of a document behind the others. More than 4,294,967,295 fields, or bytes of texts, are want of memory.
    pub fn push(&mut self, document: &PackedDoc) -> Result<(), AllocError>
        ensures ok { OnOk result (self.new ≡ self.old ++ document.now ∷ []) }
        ensures memory { OnErr result (self.new ≡ self.old) }
    {
        let (texts, fields) = document.body();
        let span = append_text(&mut self.texts, texts)?;
        let (first, last) = append_fields(&mut self.fields, fields)?;
        self.places.push(DocPlace {
            texts: span,
            first,
            last,
        })?;
        Ok(())
    }

    /// The document at a place, lent.
    pub fn get(&self, place: usize) -> DocRef<'_>
        requires { place < length self.now }
        ensures exact { slice_get self.now place ≡ Some result }
    {
        document_at(self.texts.as_str(), &self.fields, self.places[place])
    }
}

fn document_at<'a>(texts: &'a str, fields: &'a [FieldCell], place: DocPlace) -> DocRef<'a>
    requires { IsPlaced texts.now fields.now place }
    ensures exact { result ≡ document_in texts.now fields.now place }
{
    let first = place.first as usize;
    let last = place.last as usize;
    DocRef::of(text_in(texts, place.texts), &fields[first..last])
}
