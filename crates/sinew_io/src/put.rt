/// What a write to a sink answered.
#[derive(Clone, Copy, Debug, PartialEq, Eq)]
pub enum Put {
    /// So many bytes of the piece were taken: at least one.
    Bytes(usize),
    /// The device failed, and took nothing.
    Failed,
}
