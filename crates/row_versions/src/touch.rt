ghost use Rattle.std.specs.Prelude.{◌≡◌, ◌&&◌, ◌==◌};

/// That a version of a row begins or ends at a commit. In the order by commit, then row, then place.
#[derive(Clone, Copy, Debug, PartialEq, Eq, PartialOrd, Ord)]
pub(crate) struct Touch {
    pub(crate) commit: u64,
    pub(crate) row: u32,
    pub(crate) place: u32,
}

impl Touch {
    /// Whether another is of the same commit and row.
    pub(crate) fn is_like(&self, other: &Touch) -> bool
        ensures exact { result ≡ (self.now.commit == other.now.commit && self.now.row == other.now.row) }
    {
        self.commit == other.commit && self.row == other.row
    }
}
