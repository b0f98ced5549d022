ghost use Rattle.std.specs.Prelude.{◌≡◌};

use crate::version::Version;

/// The numbers of a version, with the place of the version before of its row. They take 24 bytes.
#[derive(Clone, Copy, Debug, PartialEq, Eq)]
pub(crate) struct Stored {
    pub(crate) begin: u64,
    // It says something where the version has an end.
    pub(crate) end: u64,
    pub(crate) row: u32,
    // `u32::MAX` where there is no version before.
    pub(crate) before: u32,
}

impl Stored {
    ghost use Rattle.row_versions.specs.Stored.{link_shown, stored_of};

    pub(crate) fn of(version: Version, before: Option<u32>) -> Stored
        ensures exact { result ≡ stored_of version before }
    {
        Stored {
            begin: version.begin,
            end: version.end.unwrap_or(0),
            row: version.row,
            before: before.unwrap_or(u32::MAX),
        }
    }

    /// The place of the version before of the row, if there is one.
    pub(crate) fn link(&self) -> Option<u32>
        ensures exact { result ≡ link_shown self.now }
    {
        if self.before == u32::MAX {
            None
        } else {
            Some(self.before)
        }
    }
}
