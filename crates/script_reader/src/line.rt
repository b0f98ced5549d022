use crate::positions::Positions;
use doc_values::Utf;

/// One line of a script: a statement's text, said by a session.
#[derive(Drop)]
pub struct Line {
    /// The session's number, from 1 on.
    pub session: u32,
    /// Which of its session's lines this is, from 1 on.
    pub place: u32,
    /// The positions, from 0 on, of the lines above that this one follows; ascending, each once.
    pub follows: Positions,
    /// The statement's text.
    pub text: Utf,
}
