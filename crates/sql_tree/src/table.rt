use doc_values::Utf;

/// A table of a question.
#[derive(Drop)]
pub struct Table {
    pub collection: Utf,
    pub alias: Option<Utf>,
}
