/// What a session says in one piece of a script.
#[derive(Clone, Copy)]
pub(crate) struct Statement<'a> {
    pub(crate) session: u32,
    /// The lines that it names, and its text.
    pub(crate) rest: &'a str,
}
