use crate::version_id::VersionId;

/// What a commit did to a row.
#[derive(Clone, Copy, Debug, PartialEq, Eq)]
pub struct Change {
    pub row: u32,
    pub commit: u64,
    /// The version that the row showed just before the commit.
    pub before: Option<VersionId>,
    /// The version that the row shows after it.
    pub after: Option<VersionId>,
}
