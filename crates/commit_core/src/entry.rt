use doc_values::Utf;

/// One commit.
#[derive(Drop)]
pub struct Entry {
    /// Who made it.
    pub caller: u32,
    /// The text of the write.
    pub text: Utf,
}
