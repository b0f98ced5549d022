ghost use Rattle.std.specs.Prelude.{◌≡◌, ◌<◌, ◌+◌, ◌-◌, [], ◌∷◌, ◌++◌, length, take, OnOk, OnErr, Some, None, slice_get, slice_set, position, option_map};
ghost use Rattle.std.specs.Str.{bytes_eq};

use crate::kinds::Kinds;
use doc_values::Kind;
use indexmap::IndexMap;
use std::alloc::{AllocError, Global};
use std::marker::Model;

/// Names in the order in which they came, each once, with the numbers of its kinds.
#[derive(Drop)]
pub(crate) struct Names {
    entries: IndexMap<String, Kinds>,
}

impl Model for Names {
    ghost use Rattle.std.specs.Prelude.{ℕ, List, map, string_bytes};
    ghost use Rattle.attr_catalog.specs.declared.kinds.Kinds.{Kinds as KindsOf};

    ghost Value = { List (List ℕ × KindsOf) };

    ghost view = { λ n. map (λ e. (string_bytes e.0, e.1)) n.entries.entries };
}

impl Names {
    ghost use Rattle.std.specs.Prelude.{ℕ, List};
    ghost use Rattle.attr_catalog.specs.declared.kinds.Kinds.{Kinds as KindsOf};
    ghost use Rattle.attr_catalog.specs.Inside.{AreApart, HasOneBehind, Forgets, name_at, no_kinds, with_id};

    pub(crate) fn new(alloc: Global) -> Names
        ensures exact { result ≡ [] }
    {
        Names {
            entries: IndexMap::new(alloc),
        }
    }

    pub(crate) fn len(&self) -> usize
        ensures exact { result ≡ length self.now }
        ensures apart { AreApart self.now }
    {
        self.entries.len()
    }

    /// The place of a name.
    pub(crate) fn place(&self, name: &str) -> Option<usize>
        ensures exact { result ≡ position (λ n. bytes_eq name.now n.0) self.now }
        ensures apart { AreApart self.now }
    {
        self.entries.get_index_of(name)
    }

    /// The numbers of the name at a place.
    pub(crate) fn kinds(&self, place: usize) -> Kinds
        requires { place < length self.now }
        ensures exact { option_map (λ n. n.1) (slice_get self.now place) ≡ Some result }
    {
        self.entries[place]
    }

    /// The name at a place.
    pub(crate) fn text(&self, place: usize) -> &str
        requires { place < length self.now }
        ensures exact { result.now ≡ name_at self.now place }
    {
        let (text, _) = self.entries.get_index(place).unwrap();
        text.as_str()
    }

    /// Puts other numbers behind the name at a place.
    pub(crate) fn set(&mut self, place: usize, kinds: Kinds)
        requires { place < length self.old }
        ensures exact { self.new ≡ slice_set self.old place (name_at self.old place, kinds) }
    {
        self.entries[place] = kinds;
    }

    /// Puts a new name at the end.
    pub(crate) fn push(&mut self, alloc: Global, name: &str, kinds: Kinds) -> Result<(), AllocError>
        requires { position (λ n. bytes_eq name.now n.0) self.old ≡ None }
        ensures ok { OnOk result (self.new ≡ self.old ++ (name.now, kinds) ∷ []) }
        ensures memory { OnErr result (self.new ≡ self.old) }
    {
        let text = String::from_str(alloc, name)?;
        self.entries.insert(text, kinds)?;
        Ok(())
    }

    /// Forgets a kind of the name at a place, and the name where it has no other kind. It is then the last one.
    pub(crate) fn forget(&mut self, place: usize, kind: Kind)
        requires within { place < length self.old }
        requires last { (n : List ℕ × KindsOf) → slice_get self.old place ≡ Some n → with_id kind None n.1 ≡ no_kinds → place + 1 ≡ length self.old }
        ensures exact { Forgets place kind self.old self.new }
    {
        let kinds = self.kinds(place).with(kind, None);
        if kinds == Kinds::none() {
            self.pop();
        } else {
            self.set(place, kinds);
        }
    }

    /// Takes the last name away.
    fn pop(&mut self)
        requires { 0 < length self.old }
        ensures exact { HasOneBehind self.old self.new }
    {
        self.entries.pop();
    }
}
