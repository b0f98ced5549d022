ghost use Rattle.std.specs.Prelude.{◌≡◌, option_copied};
ghost use Rattle.row_columns.specs.Contents.{Output};

use doc_values::{Doc, Value};
use std::marker::Model;

/// A row of an answer: its items, or its document, and the keys by which it is put in order.
#[derive(Drop)]
pub struct OutRow {
    items: Vec<Option<Value>>,
    doc: Option<Doc>,
    keys: Vec<Option<Value>>,
}

impl Model for OutRow {
    ghost use Rattle.row_columns.specs.Contents.{Output};

    ghost Value = { Output };

    ghost view = { λ r. record { items = r.items.items; doc = r.doc; keys = r.keys.items } };
}

impl OutRow {
    pub fn new(items: Vec<Option<Value>>, doc: Option<Doc>, keys: Vec<Option<Value>>) -> OutRow
        ensures exact { result ≡ record { items = items.items; doc = doc; keys = keys.items } }
    {
        OutRow { items, doc, keys }
    }

    pub fn items(&self) -> &[Option<Value>]
        ensures exact { result.now ≡ self.now.items }
    {
        self.items.as_slice()
    }

    pub fn doc(&self) -> Option<&Doc>
        ensures exact { option_copied result ≡ self.now.doc }
    {
        self.doc.as_ref()
    }

    pub fn keys(&self) -> &[Option<Value>]
        ensures exact { result.now ≡ self.now.keys }
    {
        self.keys.as_slice()
    }
}
