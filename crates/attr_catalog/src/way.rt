use doc_values::AttrId;

/// How a value of an attribute is reached.
#[derive(Clone, Copy, Debug, PartialEq, Eq)]
pub enum Way {
    /// From its column.
    Column(AttrId),
    /// From the record.
    Extract(AttrId),
    /// From its column, or else from the record.
    Either(AttrId),
}
