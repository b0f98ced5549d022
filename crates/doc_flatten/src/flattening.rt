ghost use Rattle.std.specs.Prelude.{◌≡◌, ◌≤◌, true, false, OnOk, Err, Some, None, length, nat_le};
ghost use Rattle.serde_json.specs.View.{view, members_view};
ghost use Rattle.doc_values.specs.Doc.{with_field};
ghost use Rattle.doc_values.specs.Value.{IsStorable};
ghost use Rattle.doc_values.specs.Lent.{owned};
ghost use Rattle.doc_flatten.specs.Fields.{fields_under, members_fields, with_all_fields};
ghost use Rattle.doc_flatten.specs.Documents.{document_of};
ghost use Rattle.doc_flatten.specs.Walk.{fits_in, members_fit_in};

use crate::flatten_fault::FlattenFault;
use crate::path::Path;
use crate::plain::compact_text;
use doc_values::{PackedDoc, ValueRef};
use serde_json::{Map, Value as Json};
use std::alloc::Global;

const MAX_DEPTH: u8 = 64;

const MAX_FIELDS: usize = 4096;

// A document as it grows, and the path of the member that the walk stands at. One serves for many documents.
#[derive(Drop)]
pub(crate) struct Flattening {
    alloc: Global,
    path: Path,
    pub doc: PackedDoc,
}

impl Flattening {
    pub(crate) fn new(alloc: Global) -> Flattening {
        Flattening {
            alloc,
            path: Path::new(alloc),
            doc: PackedDoc::new(alloc),
        }
    }

    // Reads the document that a tree is, in place of the one before.
    pub(crate) fn read(&mut self, tree: &Json) -> Result<(), FlattenFault>
        ensures ok { OnOk result (document_of (view tree.now) ≡ Some self.new.doc) }
        ensures excluded { result ≡ Err FlattenFault.Excluded
            → document_of (view tree.now) ≡ None }
    {
        let Some(members) = tree.as_object() else {
            return Err(FlattenFault::Excluded);
        };
        self.path.clear();
        self.doc.clear();
        self.add_members(members, MAX_DEPTH - 1)?;
        Ok(())
    }

    // Puts the field of the member in.
    fn add(&mut self, value: ValueRef<'_>) -> Result<(), FlattenFault>
        requires { IsStorable (owned value) }
        ensures ok { OnOk result (self.new.doc ≡ with_field self.old.doc self.old.path (owned value.entry)) }
        ensures few { OnOk result (length self.new.doc ≤ 4096) }
        ensures admitted { OnOk result
            (nat_le (length (with_field self.old.doc self.old.path (owned value.entry))) 4096 ≡ true) }
        ensures stays { self.new.path ≡ self.old.path }
        ensures excluded { result ≡ Err FlattenFault.Excluded
            → nat_le (length (with_field self.old.doc self.old.path (owned value.entry))) 4096 ≡ false }
    {
        self.doc.set(self.path.text(), value)?;
        if self.doc.len() > MAX_FIELDS {
            return Err(FlattenFault::Excluded);
        }
        Ok(())
    }

    // Puts the fields of a tree in that stands at the path, with so many levels left to nest.
    #[cycle(flatten)]
    fn add_tree(&mut self, tree: &Json, levels: u8) -> Result<(), FlattenFault>
        requires { length self.old.doc ≤ 4096 }
        ensures ok { OnOk result (self.new.doc
            ≡ with_all_fields self.old.doc (fields_under self.old.path (view tree.now))) }
        ensures few { OnOk result (length self.new.doc ≤ 4096) }
        ensures stays { OnOk result (self.new.path ≡ self.old.path) }
        ensures admitted { OnOk result
            (fits_in levels self.old.path self.old.doc (view tree.now) ≡ true) }
        ensures excluded { result ≡ Err FlattenFault.Excluded
            → fits_in levels self.old.path self.old.doc (view tree.now) ≡ false }
    {
        match tree {
            Json::Null => Ok(()),
            Json::Bool(truth) => self.add(ValueRef::Bool(*truth)),
            Json::Number(number) => {
                let number = number.as_i64().ok_or(FlattenFault::Excluded)?;
                self.add(ValueRef::Int(i128::from(number)))
            }
            Json::String(text) => self.add(ValueRef::Text(text.as_str())),
            Json::Array(_) => {
                let text = compact_text(self.alloc, tree, levels)?;
                self.add(ValueRef::Array(text.text()))
            }
            Json::Object(_) if levels == 0 => Err(FlattenFault::Excluded),
            Json::Object(members) if members.is_empty() => self.add(ValueRef::Object),
            Json::Object(members) => self.add_members(members, levels - 1),
        }
    }

    #[cycle(flatten)]
    fn add_members(&mut self, members: &Map<String, Json>, levels: u8) -> Result<(), FlattenFault>
        requires { length self.old.doc ≤ 4096 }
        ensures ok { let all = members_view members.now.entries in OnOk result (self.new.doc
            ≡ with_all_fields self.old.doc (members_fields self.old.path all)) }
        ensures few { OnOk result (length self.new.doc ≤ 4096) }
        ensures stays { OnOk result (self.new.path ≡ self.old.path) }
        ensures admitted { let all = members_view members.now.entries in OnOk result
            (members_fit_in levels self.old.path self.old.doc all ≡ true) }
        ensures excluded { let all = members_view members.now.entries in
            result ≡ Err FlattenFault.Excluded
            → members_fit_in levels self.old.path self.old.doc all ≡ false }
    {
        for (key, member) in members.iter() {
            let outer = self.path.len();
            self.path.enter(key.as_str())?;
            self.add_tree(member, levels)?;
            self.path.leave(outer);
        }
        Ok(())
    }
}
