/// What a step did.
#[derive(Clone, Copy, Debug, PartialEq, Eq)]
pub enum Moved {
    /// One version's value was moved.
    Row,
    /// A mark was taken away.
    Mark,
    /// Nothing was dirty.
    Nothing,
}
