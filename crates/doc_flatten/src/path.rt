ghost use Rattle.std.specs.Prelude.{◌≡◌, ◌≤◌, [], true, false, OnOk, Err, length, take};
ghost use Rattle.std.specs.String.Boundary.{IsSplitPoint};
ghost use Rattle.std.specs.List.{list_all};
ghost use Rattle.doc_flatten.specs.Tree.{is_key_byte, is_key, dotted, is_member};

use crate::flatten_fault::FlattenFault;
use std::alloc::Global;
use std::marker::Model;

const MAX_PATH: usize = 255;

// The dotted path of the member that a walk stands at; empty at the document itself.
#[derive(Drop)]
pub(crate) struct Path {
    text: String,
}

impl Model for Path {
    ghost use Rattle.std.specs.Prelude.{ℕ, List, ◌≤◌, length, string_bytes};

    ghost Value = { List ℕ };

    ghost view = { λ p. string_bytes p.text };

    ghost invariant = { λ p. length (string_bytes p.text) ≤ 255 };
}

impl Path {
    pub(crate) fn new(alloc: Global) -> Path
        ensures exact { result ≡ [] }
    {
        Path {
            text: String::new(alloc),
        }
    }

    pub(crate) fn len(&self) -> usize
        ensures exact { result ≡ length self.now }
    {
        self.text.len()
    }

    pub(crate) fn text(&self) -> &str
        ensures exact { result.now ≡ self.now }
    {
        self.text.as_str()
    }

    // Goes back to the document itself.
    pub(crate) fn clear(&mut self)
        ensures exact { self.new ≡ [] }
    {
        self.text.clear();
    }

    // Goes on to a member of the object that it stands at.
    pub(crate) fn enter(&mut self, key: &str) -> Result<(), FlattenFault>
        ensures ok { OnOk result (self.new ≡ dotted self.old key.now) }
        ensures admitted { OnOk result (is_member self.old key.now ≡ true) }
        ensures excluded { result ≡ Err FlattenFault.Excluded
            → is_member self.old key.now ≡ false }
    {
        let dot = usize::from(!self.text.is_empty());
        if !is_key(key) || self.text.len() + dot + key.len() > MAX_PATH {
            return Err(FlattenFault::Excluded);
        }
        if !self.text.is_empty() {
            self.text.push('.')?;
        }
        self.text.push_str(key)?;
        Ok(())
    }

    // Goes back to an object that it stood at.
    pub(crate) fn leave(&mut self, outer: usize)
        requires { IsSplitPoint self.old outer }
        ensures exact { self.new ≡ take outer self.old }
    {
        self.text.truncate(outer);
    }
}

fn is_key(key: &str) -> bool
    ensures exact { result ≡ is_key key.now }
{
    !key.is_empty() && has_key_bytes(key.as_bytes())
}

fn has_key_bytes(key: &[u8]) -> bool
    ensures exact { result ≡ list_all is_key_byte key.now }
{
    key.iter().all(|byte| is_key_byte(*byte))
}

fn is_key_byte(byte: u8) -> bool
    ensures exact { result ≡ is_key_byte byte }
{
    byte >= b' ' && byte != b'.' && byte != b'"'
}
