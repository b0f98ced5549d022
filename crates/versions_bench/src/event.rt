use row_versions::VersionId;

/// What is done to the versions.
#[derive(Clone, Copy, Debug)]
pub(crate) enum Event {
    Append { row: u32, commit: u64 },
    End { version: VersionId, commit: u64 },
    Empty { version: VersionId, horizon: u64 },
}

/// The event that a word spells.
pub(crate) fn read_event(word: &str) -> Option<Event> {
    if let Some(rest) = word.strip_prefix("+") {
        let (row, commit) = numbers(rest)?;
        return Some(Event::Append { row, commit });
    }
    if let Some(rest) = word.strip_prefix("-") {
        let (version, commit) = numbers(rest)?;
        let version = VersionId(version);
        return Some(Event::End { version, commit });
    }
    let (version, horizon) = numbers(word.strip_prefix("x")?)?;
    let version = VersionId(version);
    Some(Event::Empty { version, horizon })
}

// The numbers on both sides of an `@`.
fn numbers(text: &str) -> Option<(u32, u64)> {
    let (first, second) = text.split_once('@')?;
    Some((first.parse().ok()?, second.parse().ok()?))
}
