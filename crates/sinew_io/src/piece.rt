/// What one read of a whole reading gave.
pub(crate) enum Piece {
    /// Bytes within the limit.
    Within,
    /// Nothing: the source is at its end.
    End,
    /// One byte beyond the limit, behind all bytes up to it.
    Beyond,
}
