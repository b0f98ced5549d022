ghost use Rattle.std.specs.Prelude.{◌≡◌, true, false, IfOk, MatchOption};
ghost use Rattle.std.specs.List.{prefix_len};
ghost use Rattle.script_reader.specs.Pieces.{behind_word, first_word, is_before_point, named_by, named_in, names_a_line};

use crate::draft::Draft;
use crate::named::Named;
use crate::number::{read_place, read_session};
use crate::piece::cut_word;
use crate::positions::Positions;
use doc_values::Utf;
use std::alloc::{AllocError, Global};

/// The lines that a statement names, and its text, from what stands behind its session number; nothing where a word names
/// no line above.
pub(crate) fn read_names(
    alloc: Global,
    above: &Draft,
    line: &str,
) -> Result<Option<Named>, AllocError>
    ensures exact { IfOk result (λ named. named ≡ named_in above.now 0 line.now) }
{
    let mut lines = Vec::new(alloc);
    let mut rest = line;
    'names: while let Some((name, behind)) = next_name(rest) {
        let Some(position) = line_named(above, name) else {
            return Ok(None);
        };
        lines.push(position)?;
        rest = behind;
    }
    Ok(Some(Named {
        lines: Positions::from_vec(lines),
        text: Utf::of(alloc, rest)?,
    }))
}

/// The name of a line that stands first behind the word `after`, and what stands behind it.
fn next_name(rest: &str) -> Option<(&str, &str)>
    ensures exact { MatchOption result (names_a_line rest.now ≡ false) (λ next.
        (names_a_line rest.now ≡ true)
        × (next.0.now ≡ first_word (behind_word rest.now))
        × (next.1.now ≡ behind_word (behind_word rest.now))) }
{
    let (word, behind) = cut_word(rest);
    if word == "after" {
        Some(cut_word(behind))
    } else {
        None
    }
}

/// The position of the line above that a word names.
fn line_named(above: &Draft, word: &str) -> Option<u32>
    ensures exact { result ≡ named_by above.now word.now }
{
    let word = word.as_bytes();
    let (session, behind) = word.split_at(point_at(word));
    let session = read_session(session)?;
    let (_, place) = behind.split_first()?;
    let place = read_place(place)?;
    above.line_at(session, place)
}

/// How many bytes stand before the first point.
fn point_at(word: &[u8]) -> usize
    ensures exact { result ≡ prefix_len is_before_point word.now }
{
    word.iter().take_while(|byte| **byte != b'.').count()
}
