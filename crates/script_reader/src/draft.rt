ghost use Rattle.std.specs.Prelude.{◌≡◌, ◌+◌, ◌<◌, ◌≤◌, ◌^◌, [], ◌∷◌, ◌++◌, ◌-◌, length, IfOk, Some, option_to_list, slice_get, slice_index_or};
ghost use Rattle.std.specs.List.{All};
ghost use Rattle.script_reader.specs.Draft.{TellsSessions};
ghost use Rattle.script_reader.specs.Reader.{ascending};

use crate::limits::MOST_SESSIONS;
use crate::line::Line;
use crate::named::Named;
use crate::positions::Positions;
use std::alloc::{AllocError, Global};
use std::marker::Model;

/// The lines of a script as far as it is read.
#[derive(Drop)]
pub(crate) struct Draft {
    lines: Vec<Line>,
    /// The positions of the lines of each session.
    sessions: Vec<Positions>,
}

impl Model for Draft {
    ghost use Rattle.std.specs.Prelude.{List};
    ghost use Rattle.script_reader.specs.declared.line.Line.{Line as LineOf};
    ghost use Rattle.script_reader.specs.Draft.{TellsSessions};

    ghost Value = { List LineOf };

    ghost view = { λ d. d.lines.items };

    ghost invariant = { λ d. TellsSessions d.sessions.items d.lines.items };
}

impl Draft {
    ghost use Rattle.script_reader.specs.Reader.{line_behind};
    ghost use Rattle.script_reader.specs.Pieces.{line_above, most_lines};
    ghost use Rattle.script_reader.specs.Sessions.{IsSession};

    pub(crate) fn new(alloc: Global) -> Result<Draft, AllocError>
        ensures ok { IfOk result (λ draft. draft ≡ []) }
    {
        Ok(Draft {
            lines: Vec::new(alloc),
            sessions: no_lines(alloc)?,
        })
    }

    /// Adds the line that a statement of a session makes behind the lines so far.
    pub(crate) fn push(self, alloc: Global, session: u32, named: Named) -> Result<Draft, AllocError>
        requires known { IsSession session }
        requires above { All (λ position. position < length self) named.lines }
        requires room { length self < most_lines }
        ensures ok { IfOk result (λ draft. draft ≡ self ++ line_behind self session named.lines named.text ∷ []) }
    {
        let Draft {
            mut lines,
            mut sessions,
        } = self;
        let position = lines.len() as u32;
        let own = &mut sessions[session as usize - 1];
        let line = Line {
            session,
            place: own.items().len() as u32 + 1,
            follows: followed(lines.len(), own.items().last().copied(), named.lines)?,
            text: named.text,
        };
        own.push(position)?;
        lines.push(line)?;
        Ok(Draft { lines, sessions })
    }

    /// The position of the line that has the place in the session.
    pub(crate) fn line_at(&self, session: u32, place: u32) -> Option<u32>
        requires known { IsSession session }
        requires first { 0 < place }
        ensures exact { result ≡ line_above self.now (Some session) (Some place) }
    {
        entry_at(self.sessions.as_slice(), session as usize - 1, place)
    }

    pub(crate) fn into_lines(self) -> Vec<Line>
        ensures exact { result.items ≡ self }
    {
        self.lines
    }
}

/// For each session that there are no lines of it.
fn no_lines(alloc: Global) -> Result<Vec<Positions>, AllocError>
    ensures ok { IfOk result (λ none. TellsSessions none.items []) }
{
    let mut sessions = Vec::new(alloc);
    for _session in 0..MOST_SESSIONS {
        sessions.push(Positions::new(alloc))?;
    }
    Ok(sessions)
}

/// What a line follows that names these lines, and whose session's last line is the one given.
fn followed(lines: usize, last: Option<u32>, named: Positions) -> Result<Positions, AllocError>
    requires { All (λ position. position < lines) (named ++ option_to_list last) }
    ensures ok { IfOk result (λ follows. follows ≡ ascending (named ++ option_to_list last) lines) }
{
    let mut follows = with_last(named, last)?;
    follows.sort_unstable();
    follows.dedup();
    Ok(Positions::from_vec(follows))
}

fn with_last(named: Positions, last: Option<u32>) -> Result<Vec<u32>, AllocError>
    ensures ok { IfOk result (λ all. all.items ≡ named ++ option_to_list last) }
{
    let mut all = named.into_vec();
    match last {
        Some(last) => {
            all.push(last)?;
            Ok(all)
        }
        None => Ok(all),
    }
}

/// The position that has a place, counted from 1, among those of a session.
fn entry_at(sessions: &[Positions], session: usize, place: u32) -> Option<u32>
    requires session { session < length sessions.now }
    requires place { 0 < place }
    ensures exact { result ≡ slice_get (slice_index_or sessions.now session []) (place - 1) }
{
    let own = &sessions[session];
    own.items().get(place as usize - 1).copied()
}
