ghost use Rattle.std.specs.Prelude.{◌≤◌};

/// When an attribute becomes a column: the percentage of documents that hold it, and how many different values it has.
#[derive(Clone, Copy, Debug, PartialEq, Eq)]
pub struct Limits {
    /// A column is held by at least so many of 100 documents.
    pub density: u32,
    /// A column has more than so many different values.
    pub cardinality: u32,
    ghost density_in_range: { density ≤ 100 },
    ghost cardinality_in_range: { cardinality ≤ 10000 },
}
