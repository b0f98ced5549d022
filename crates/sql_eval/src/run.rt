/// What came of a pattern up to its first `%`, or to its end, at the front of a text.
#[derive(Clone, Copy)]
pub(crate) enum Run<'a> {
    /// The text is not like it.
    Mismatch,
    /// The pattern ended, and the text with it.
    Whole,
    /// What is left of both behind the `%`.
    Star { text: &'a str, pattern: &'a str },
}
