/// What each worker is to do: so many turns, and whether an entry is kept of each.
#[derive(Clone, Copy)]
pub struct Job {
    pub turns: u32,
    pub keep: bool,
}
