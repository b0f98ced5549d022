/// The most bytes that a script may have: 64 MiB.
pub const MOST_BYTES: usize = 67_108_864;

/// The most lines of a script, blank ones and remarks too.
pub const MOST_LINES: u32 = 65_536;

/// The most bytes of a line: 1 MiB.
pub const MOST_LINE_BYTES: usize = 1_048_576;

/// The highest number of a session; the lowest is 1.
pub const MOST_SESSIONS: u32 = 64;
