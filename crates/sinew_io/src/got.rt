/// What a read of a source answered.
#[derive(Clone, Copy, Debug, PartialEq, Eq)]
pub enum Got {
    /// So many bytes stand at the front of the buffer: at least one.
    Bytes(usize),
    /// Nothing is left.
    End,
    /// The device failed, and gave nothing.
    Failed,
}
