/// The numbers of fields are below this.
pub(crate) const NUMBERS: u32 = 65_536;

/// The values of a record have at most so many bytes together.
pub(crate) const MOST_BYTES: u32 = 16_777_216;
