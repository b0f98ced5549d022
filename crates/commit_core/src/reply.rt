use doc_values::Bytes;

/// The reply to a statement.
#[derive(Drop)]
pub struct Reply {
    /// How many commits it counts: those over which it was made, an accepted write itself included.
    pub at: u64,
    /// It is the reply of a commit.
    pub accepted: bool,
    /// Its lines, each ended by a line feed.
    pub body: Bytes,
}
