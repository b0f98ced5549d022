ghost use Rattle.std.specs.Prelude.{◌≡◌, ◌<◌, ◌+◌, ◌^◌, IfSome};
ghost use Rattle.attr_catalog.specs.Attribute.{raised, lowered, housed, dirtied, advanced, cleared};

use crate::home::Home;
use doc_values::Kind;

/// An attribute, with the place of its name in place of the name.
#[derive(Clone, Copy, Debug, PartialEq, Eq)]
pub(crate) struct Stored {
    pub(crate) name: usize,
    pub(crate) kind: Kind,
    pub(crate) count: u32,
    pub(crate) home: Home,
    pub(crate) mark: Option<u32>,
}

impl Stored {
    ghost use Rattle.attr_catalog.specs.Inside.{fresh_at, ShowsAs};

    /// An attribute that no document holds yet.
    pub(crate) fn fresh(name: usize, kind: Kind) -> Stored
        ensures exact { result ≡ fresh_at name kind }
    {
        Stored {
            name,
            kind,
            count: 0,
            home: Home::Reservoir,
            mark: None,
        }
    }

    pub(crate) fn raise(&mut self)
        requires { self.old.count + 1 < 2 ^ 32 }
        ensures exact { ShowsAs raised self.old self.new }
    {
        self.count += 1;
    }

    pub(crate) fn lower(&mut self)
        requires { 0 < self.old.count }
        ensures exact { ShowsAs lowered self.old self.new }
    {
        self.count -= 1;
    }

    pub(crate) fn set_home(&mut self, home: Home)
        ensures exact { ShowsAs (housed home) self.old self.new }
    {
        if self.home != home {
            self.home = home;
            self.mark = Some(0);
        }
    }

    pub(crate) fn mark_dirty(&mut self, from: u32)
        ensures exact { ShowsAs (dirtied from) self.old self.new }
    {
        if self.mark.is_none() {
            self.mark = Some(from);
        }
    }

    pub(crate) fn advance(&mut self)
        requires { IfSome self.old.mark (λ clean_to. clean_to + 1 < 2 ^ 32) }
        ensures exact { ShowsAs advanced self.old self.new }
    {
        if let Some(clean_to) = self.mark {
            self.mark = Some(clean_to + 1);
        }
    }

    pub(crate) fn clear_dirty(&mut self)
        ensures exact { ShowsAs cleared self.old self.new }
    {
        self.mark = None;
    }
}
