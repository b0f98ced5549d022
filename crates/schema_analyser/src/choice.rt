use attr_catalog::Home;
use doc_values::AttrId;

/// The home that is chosen for an attribute.
#[derive(Clone, Copy, Debug, PartialEq, Eq)]
pub struct Choice {
    pub id: AttrId,
    pub home: Home,
}
