/// Where a value is read: a table of the tuple, and a column of its row.
#[derive(Clone, Copy, Debug, PartialEq, Eq)]
pub struct Slot {
    pub table: u32,
    pub column: u32,
}
