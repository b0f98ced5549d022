use doc_values::Utf;

/// A column as a text names it.
#[derive(Drop)]
pub struct Ref {
    /// The alias of a table.
    pub qualifier: Option<Utf>,
    pub name: Utf,
}
