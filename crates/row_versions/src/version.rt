ghost use Rattle.std.specs.Prelude.{◌≡◌, ◌<◌, ◌≤◌, ◌↔◌, IsTrue, is_some};

/// A version of a row.
#[derive(Clone, Copy, Debug, PartialEq, Eq)]
pub struct Version {
    /// The row that it is a version of.
    pub row: u32,
    /// The commit from which on it is seen.
    pub begin: u64,
    /// The commit from which on it is no longer seen, if there is one.
    pub end: Option<u64>,
    /// Whether what it held was given up.
    pub emptied: bool,
}

impl Version {
    ghost use Rattle.row_versions.specs.History.{begun, ended, endless, given_up, is_open};
    ghost use Rattle.row_versions.specs.Inside.{ends_before};

    /// A version of a row that begins at a commit.
    pub(crate) fn begun(row: u32, commit: u64) -> Version
        ensures exact { result ≡ begun row commit }
    {
        Version {
            row,
            begin: commit,
            end: None,
            emptied: false,
        }
    }

    /// The version with an end.
    pub(crate) fn ending(self, commit: u64) -> Version
        ensures exact { result ≡ ended commit self }
    {
        let mut version = self;
        version.end = Some(commit);
        version
    }

    /// The version without an end.
    pub(crate) fn endless(self) -> Version
        ensures exact { result ≡ endless self }
    {
        let mut version = self;
        version.end = None;
        version
    }

    /// The version without what it held.
    pub(crate) fn given_up(self) -> Version
        ensures exact { result ≡ given_up self }
    {
        let mut version = self;
        version.emptied = true;
        version
    }

    /// Whether its end, or none, leaves it seen after `n` commits.
    pub(crate) fn is_open(&self, n: u64) -> bool
        ensures exact { result ≡ is_open n self.now.end }
    {
        match self.end {
            Some(end) => n < end,
            None => true,
        }
    }

    /// Whether it has an end, which comes before a commit.
    pub(crate) fn ends_before(&self, commit: u64) -> bool
        ensures exact { result ≡ ends_before commit self.now.end }
    {
        match self.end {
            Some(end) => end < commit,
            None => false,
        }
    }
}
