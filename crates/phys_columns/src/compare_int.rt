use doc_values::CompareOp;

/// A comparison of a number with a fixed one, which stands on the right.
#[derive(Clone, Copy, Debug, PartialEq, Eq)]
pub struct CompareInt {
    pub op: CompareOp,
    pub with: i64,
}
