ghost use Rattle.std.specs.Prelude.{◌≡◌};

use doc_values::{AttrId, Kind};

/// The numbers of the attributes of one name, kind by kind.
#[derive(Clone, Copy, Debug, PartialEq, Eq)]
pub struct Kinds {
    pub bool_id: Option<AttrId>,
    pub int_id: Option<AttrId>,
    pub text_id: Option<AttrId>,
    pub array_id: Option<AttrId>,
    pub object_id: Option<AttrId>,
}

impl Kinds {
    ghost use Rattle.attr_catalog.specs.Catalog.{id_at};
    ghost use Rattle.attr_catalog.specs.Inside.{no_kinds, with_id};

    /// No numbers.
    pub(crate) fn none() -> Kinds
        ensures exact { result ≡ no_kinds }
    {
        Kinds {
            bool_id: None,
            int_id: None,
            text_id: None,
            array_id: None,
            object_id: None,
        }
    }

    /// The number for a kind.
    pub fn of(&self, kind: Kind) -> Option<AttrId>
        ensures exact { result ≡ id_at kind self.now }
    {
        match kind {
            Kind::Bool => self.bool_id,
            Kind::Int => self.int_id,
            Kind::Text => self.text_id,
            Kind::Array => self.array_id,
            Kind::Object => self.object_id,
        }
    }

    /// The same with another number for a kind.
    pub(crate) fn with(self, kind: Kind, id: Option<AttrId>) -> Kinds
        ensures exact { result ≡ with_id kind id self }
    {
        let mut kinds = self;
        match kind {
            Kind::Bool => kinds.bool_id = id,
            Kind::Int => kinds.int_id = id,
            Kind::Text => kinds.text_id = id,
            Kind::Array => kinds.array_id = id,
            Kind::Object => kinds.object_id = id,
        }
        kinds
    }
}
