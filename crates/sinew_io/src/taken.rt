use doc_values::Bytes;

/// What was read of a source up to a limit.
#[derive(Drop)]
pub struct Taken {
    /// The bytes up to the limit.
    pub bytes: Bytes,
    /// One byte beyond the limit was there.
    pub more: bool,
}
