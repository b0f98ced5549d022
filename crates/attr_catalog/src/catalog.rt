ghost use Rattle.std.specs.Prelude.{take, drop, ◌≡◌, ◌<◌, ◌≤◌, [], length, option_map, unwrap_or, slice_get, is_some, Some, IfSome, IsSome, ◌∷◌, ◌++◌, ◌↔◌, None, OnOk, OnErr, IfOk, IsOk};
ghost use Rattle.std.specs.List.{All};
ghost use Rattle.attr_catalog.specs.Inside.{HasOneBehind};
ghost use Rattle.attr_catalog.specs.Attribute.{fresh, raised, lowered, housed, dirtied, advanced, cleared};

use crate::add_fault::AddFault;
use crate::home::Home;
use crate::kinds::Kinds;
use crate::names::Names;
use crate::stored::Stored;
use doc_values::{AttrId, Kind};
use std::alloc::{AllocError, Global};
use std::marker::Model;

/// How many attributes a catalog may hold.
pub const MOST_ATTRIBUTES: usize = 65_536;

/// The attributes of a collection, in the order of their numbers.
#[derive(Drop)]
pub struct Catalog {
    names: Names,
    stored: Vec<Stored>,
}

impl Model for Catalog {
    ghost use Rattle.std.specs.Prelude.{List};
    ghost use Rattle.attr_catalog.specs.Attribute.{Attribute};
    ghost use Rattle.attr_catalog.specs.Inside.{all_shown, BelongTogether};

    ghost Value = { List Attribute };

    ghost view = { λ c. all_shown c.names c.stored.items };

    ghost invariant = { λ c. BelongTogether c.names c.stored.items };
}

impl Catalog {
    ghost use Rattle.attr_catalog.specs.Catalog.{id_of, kinds_of, IsOnce, most_attributes, most_versions, with_pair, changed};

    pub fn new(alloc: Global) -> Catalog
        ensures exact { result ≡ [] }
    {
        Catalog {
            names: Names::new(alloc),
            stored: Vec::new(alloc),
        }
    }

    /// How many attributes there are.
    pub fn len(&self) -> u32
        ensures exact { result ≡ length self.now }
    {
        self.stored.len() as u32
    }

    /// Law: each pair stands once, and there are no more attributes than there may be.
    pub fn keeps_the_rules(&self)
        ensures once { IsOnce self.now }
        ensures few { length self.now ≤ most_attributes }
    {
        let _len = self.stored.len();
    }

    /// The number of the attribute of a name and a kind.
    pub fn find(&self, name: &str, kind: Kind) -> Option<AttrId>
        ensures exact { result ≡ id_of name.now kind self.now }
    {
        self.kinds_of(name).of(kind)
    }

    /// The numbers of the attributes of a name, kind by kind, by one look-up.
    pub fn kinds_of(&self, name: &str) -> Kinds
        ensures exact { result ≡ kinds_of name.now self.now }
    {
        match self.names.place(name) {
            Some(place) => self.names.kinds(place),
            None => Kinds::none(),
        }
    }

    /// The number of the attribute of a name and a kind. Where the attribute that is guessed has that name, no look-up is
    /// needed.
    pub fn find_guessed(&self, guess: AttrId, name: &str, kind: Kind) -> Option<AttrId>
        ensures exact { result ≡ id_of name.now kind self.now }
    {
        self.kinds_guessed(guess, name).of(kind)
    }

    // The numbers of the attributes of a name, which an attribute may have.
    fn kinds_guessed(&self, guess: AttrId, name: &str) -> Kinds
        ensures exact { result ≡ kinds_of name.now self.now }
    {
        let Some(place) = place_of(&self.stored, guess) else {
            return self.kinds_of(name);
        };
        if self.names.text(place) == name {
            self.names.kinds(place)
        } else {
            self.kinds_of(name)
        }
    }

    /// The number of the attribute of a name and a kind, which is appended where it is new.
    pub fn add(&mut self, name: &str, kind: Kind) -> Result<AttrId, AddFault>
        ensures ok { OnOk result (self.new ≡ with_pair name.now kind self.old) }
        ensures number { IfOk result (λ id. id_of name.now kind self.new ≡ Some id) }
        ensures next { IfOk result (λ id. id_of name.now kind self.old ≡ None → id.0 ≡ length self.old) }
        ensures full { (result ≡ Err AddFault.Full) ↔ ((id_of name.now kind self.old ≡ None) × (length self.old ≡ most_attributes)) }
        ensures kept { OnErr result (self.new ≡ self.old) }
        ensures known { IsSome (id_of name.now kind self.old) → IsOk result }
    {
        if let Some(id) = self.find(name, kind) {
            return Ok(id);
        }
        if self.stored.len() == MOST_ATTRIBUTES {
            return Err(AddFault::Full);
        }
        let id = AttrId(self.stored.len() as u32);
        self.append(name, kind, id)?;
        Ok(id)
    }

    // Appends a new pair, whose number is the next one.
    fn append(&mut self, name: &str, kind: Kind, id: AttrId) -> Result<(), AllocError>
        requires new { id_of name.now kind self.old ≡ None }
        requires next { id.0 ≡ length self.old }
        requires room { length self.old < most_attributes }
        ensures ok { OnOk result (self.new ≡ self.old ++ fresh name.now kind ∷ []) }
        ensures number { OnOk result (id_of name.now kind self.new ≡ Some id) }
        ensures memory { OnErr result (self.new ≡ self.old) }
    {
        let alloc = *self.stored.allocator();
        match self.names.place(name) {
            Some(place) => {
                let kinds = self.names.kinds(place).with(kind, Some(id));
                self.stored.push(Stored::fresh(place, kind))?;
                self.names.set(place, kinds);
                Ok(())
            }
            None => {
                let kinds = Kinds::none().with(kind, Some(id));
                self.stored.push(Stored::fresh(self.names.len(), kind))?;
                let pushed = self.names.push(alloc, name, kinds);
                if pushed.is_err() {
                    self.stored.pop();
                }
                pushed
            }
        }
    }

    /// The name of an attribute.
    pub fn name(&self, id: AttrId) -> &str
        requires { id.0 < length self.now }
        ensures exact { option_map (λ a. a.name) (slice_get self.now id.0) ≡ Some result.now }
    {
        self.names.text(self.stored[id.0 as usize].name)
    }

    /// The kind of an attribute.
    pub fn kind(&self, id: AttrId) -> Kind
        requires { id.0 < length self.now }
        ensures exact { option_map (λ a. a.kind) (slice_get self.now id.0) ≡ Some result }
    {
        self.stored[id.0 as usize].kind
    }

    /// How many documents hold an attribute.
    pub fn count(&self, id: AttrId) -> u32
        requires { id.0 < length self.now }
        ensures exact { option_map (λ a. a.count) (slice_get self.now id.0) ≡ Some result }
    {
        self.stored[id.0 as usize].count
    }

    /// The home of an attribute.
    pub fn home(&self, id: AttrId) -> Home
        requires { id.0 < length self.now }
        ensures exact { option_map (λ a. a.home) (slice_get self.now id.0) ≡ Some result }
    {
        self.stored[id.0 as usize].home
    }

    /// Whether some values of an attribute may stand where they do not belong.
    pub fn dirty(&self, id: AttrId) -> bool
        requires { id.0 < length self.now }
        ensures exact { option_map (λ a. is_some a.mark) (slice_get self.now id.0) ≡ Some result }
    {
        self.stored[id.0 as usize].mark.is_some()
    }

    /// Below which version a dirty attribute is known to be clean. Of a clean one it says nothing, and is 0.
    pub fn clean_to(&self, id: AttrId) -> u32
        requires { id.0 < length self.now }
        ensures exact { option_map (λ a. unwrap_or a.mark 0) (slice_get self.now id.0) ≡ Some result }
    {
        self.stored[id.0 as usize].mark.unwrap_or(0)
    }

    /// Counts one document more that holds an attribute.
    pub fn raise(&mut self, id: AttrId)
        requires standing { id.0 < length self.old }
        requires room { IfSome (slice_get self.old id.0) (λ a. a.count < most_versions) }
        ensures exact { self.new ≡ changed raised id self.old }
    {
        self.stored[id.0 as usize].raise();
    }

    /// Counts one document fewer that holds an attribute.
    pub fn lower(&mut self, id: AttrId)
        requires standing { id.0 < length self.old }
        requires held { IfSome (slice_get self.old id.0) (λ a. 0 < a.count) }
        ensures exact { self.new ≡ changed lowered id self.old }
    {
        self.stored[id.0 as usize].lower();
    }

    /// Gives an attribute a home. Where that is another one, all its values may stand where they do not belong.
    pub fn set_home(&mut self, id: AttrId, home: Home)
        requires { id.0 < length self.old }
        ensures exact { self.new ≡ changed (housed home) id self.old }
    {
        self.stored[id.0 as usize].set_home(home);
    }

    /// Marks a clean attribute dirty, with the versions below a number known to be clean.
    pub fn mark_dirty(&mut self, id: AttrId, from: u32)
        requires { id.0 < length self.old }
        ensures exact { self.new ≡ changed (dirtied from) id self.old }
    {
        self.stored[id.0 as usize].mark_dirty(from);
    }

    /// Knows one version more of a dirty attribute to be clean.
    pub fn advance(&mut self, id: AttrId)
        requires dirty { IfSome (slice_get self.old id.0) (λ a. IsSome a.mark) }
        requires room { IfSome (slice_get self.old id.0) (λ a. IfSome a.mark (λ clean_to. clean_to < most_versions)) }
        requires standing { id.0 < length self.old }
        ensures exact { self.new ≡ changed advanced id self.old }
    {
        self.stored[id.0 as usize].advance();
    }

    /// Takes the mark of an attribute away.
    pub fn clear_dirty(&mut self, id: AttrId)
        requires { id.0 < length self.old }
        ensures exact { self.new ≡ changed cleared id self.old }
    {
        self.stored[id.0 as usize].clear_dirty();
    }

    /// Takes away the attributes from a number on, which no document holds.
    pub fn cut(&mut self, len: u32)
        requires within { len ≤ length self.old }
        requires unheld { All (λ a. a.count ≡ 0) (drop len self.old) }
        ensures exact { self.new ≡ take len self.old }
    {
        while self.len() > len {
            self.pop();
        }
    }

    // Takes the last attribute away.
    fn pop(&mut self)
        requires { 0 < length self.old }
        ensures exact { HasOneBehind self.old self.new }
    {
        if let Some(last) = self.stored.pop() {
            self.names.forget(last.name, last.kind);
        }
    }
}

// The place of the name of an attribute.
fn place_of(stored: &[Stored], id: AttrId) -> Option<usize>
    ensures exact { result ≡ option_map (λ s. s.name) (slice_get stored.now id.0) }
{
    Some(stored.get(id.0 as usize)?.name)
}
