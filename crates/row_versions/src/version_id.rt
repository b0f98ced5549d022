/// The number of a version: its place in the order in which versions were written, from 0.
#[derive(Clone, Copy, Debug, PartialEq, Eq)]
pub struct VersionId(pub u32);
