use doc_values::{AttrId, Kind};

/// The cell that has room reserved, and the kind of the value that may be put there.
#[derive(Clone, Copy, Debug, PartialEq, Eq)]
pub struct Spare {
    pub id: AttrId,
    pub version: u32,
    pub kind: Kind,
}
