ghost use Rattle.std.specs.Prelude.{◌≡◌};

use crate::version::Version;

/// What a version is marked with.
#[derive(Clone, Copy, Debug, PartialEq, Eq)]
pub(crate) struct Marks {
    pub(crate) ended: bool,
    pub(crate) emptied: bool,
}

impl Marks {
    ghost use Rattle.row_versions.specs.Stored.{marks_of};

    pub(crate) fn of(version: Version) -> Marks
        ensures exact { result ≡ marks_of version }
    {
        Marks {
            ended: version.end.is_some(),
            emptied: version.emptied,
        }
    }
}
