ghost use Rattle.std.specs.Prelude.{◌≡◌};
ghost use Rattle.std.specs.List.{list_all, prefix_len};
ghost use Rattle.script_reader.specs.Pieces.{behind_word, first_word, is_blank, is_gap, is_in_word, is_remark, past, said_alone, said_short, statement_in};
ghost use Rattle.script_reader.specs.Told.{told, said_by};

use crate::limits::{MOST_LINE_BYTES, MOST_LINES};
use crate::number::read_session;
use crate::statement::Statement;
use crate::why::Why;

/// What the piece of a number says, but for the lines that it names; nothing where it is blank or a remark.
pub(crate) fn read_piece(number: u32, piece: &[u8]) -> Result<Option<Statement<'_>>, Why>
    ensures exact { told result ≡ said_alone number piece.now }
{
    if number > MOST_LINES {
        return Err(Why::Lines);
    }
    if piece.len() > MOST_LINE_BYTES {
        return Err(Why::Long);
    }
    read_short(piece)
}

#[tactic(auto, using(crate::proofs::Saying::said_bad, crate::proofs::Saying::said_nothing, crate::proofs::Saying::said_statement))]
fn read_short(piece: &[u8]) -> Result<Option<Statement<'_>>, Why>
    ensures exact { told result ≡ said_short piece.now }
{
    let Ok(text) = str::from_utf8(piece) else {
        return Err(Why::Utf8);
    };
    if is_blank_line(text) || is_remark(text) {
        return Ok(None);
    }
    match read_statement(past_gap(text)) {
        Ok(statement) => Ok(Some(statement)),
        Err(why) => Err(why),
    }
}

fn is_blank_line(text: &str) -> bool
    ensures exact { result ≡ list_all is_blank text.now }
{
    text.bytes().all(is_blank)
}

fn is_remark(text: &str) -> bool
    ensures exact { result ≡ is_remark text.now }
{
    past_gap(text).starts_with('#')
}

/// A session number, and what stands behind it.
fn read_statement(line: &str) -> Result<Statement<'_>, Why>
    ensures exact { said_by result ≡ statement_in line.now }
{
    let (number, rest) = cut_word(line);
    match read_session(number.as_bytes()) {
        Some(session) => Ok(Statement { session, rest }),
        None => Err(Why::Session),
    }
}

/// The word that stands first, and what stands behind it past spaces and tabs.
pub(crate) fn cut_word(text: &str) -> (&str, &str)
    ensures word { result.0.now ≡ first_word text.now }
    ensures behind { result.1.now ≡ behind_word text.now }
{
    let (word, rest) = text.split_at(word_len(text));
    (word, past_gap(rest))
}

/// The text from its first byte on that is neither a space nor a tab.
fn past_gap(text: &str) -> &str
    ensures exact { result.now ≡ past is_gap text.now }
{
    &text[gap_len(text)..]
}

/// How many spaces and tabs stand first.
fn gap_len(text: &str) -> usize
    ensures exact { result ≡ prefix_len is_gap text.now }
{
    text.bytes().take_while(|byte| is_gap(*byte)).count()
}

/// How many bytes stand before the first blank.
fn word_len(text: &str) -> usize
    ensures exact { result ≡ prefix_len is_in_word text.now }
{
    text.bytes().take_while(|byte| !is_blank(*byte)).count()
}

fn is_gap(byte: u8) -> bool
    ensures exact { result ≡ is_gap byte }
{
    byte == b' ' || byte == b'\t'
}

fn is_blank(byte: u8) -> bool
    ensures exact { result ≡ is_blank byte }
{
    is_gap(byte) || byte == b'\r'
}
