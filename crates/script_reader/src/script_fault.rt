use crate::why::Why;

/// The fault for which bytes are no script.
#[derive(Clone, Copy, Debug, PartialEq, Eq)]
pub struct ScriptFault {
    /// The number of the bad line, from 1 on and blank lines counted; 0 where there are too many bytes.
    pub line: u32,
    pub why: Why,
}
