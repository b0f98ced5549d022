/// What a prepared text is.
#[derive(Clone, Copy, Debug, PartialEq, Eq)]
pub enum PreparedSort {
    Refused,
    Read,
    Write,
}
