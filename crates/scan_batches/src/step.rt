/// What a batch came to.
#[derive(Clone, Copy, Debug, PartialEq, Eq)]
pub enum Step {
    /// Rows are left.
    More,
    /// Every row is passed.
    End,
    /// What the scan reads at may have been given up: the number of commits from which on everything is kept.
    Gone(u64),
}
