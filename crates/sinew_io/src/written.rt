/// What became of a whole text that a sink was to take.
#[derive(Clone, Copy, Debug, PartialEq, Eq)]
pub enum Written {
    /// The sink took it all.
    Done,
    /// The sink failed when it had taken so many bytes.
    Failed(usize),
}
