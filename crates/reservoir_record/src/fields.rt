use crate::field_bytes::FieldBytes;

/// A field of a record: its number, and the bytes of its value.
#[derive(Drop)]
pub struct Field {
    pub id: u32,
    pub bytes: FieldBytes,
}
