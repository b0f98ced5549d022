use crate::positions::Positions;
use doc_values::Utf;

/// The lines that a statement names, in the order in which it does, and its text.
#[derive(Drop)]
pub(crate) struct Named {
    pub(crate) lines: Positions,
    pub(crate) text: Utf,
}
