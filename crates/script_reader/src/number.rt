ghost use Rattle.std.specs.Prelude.{◌≡◌, ◌≤◌};
ghost use Rattle.script_reader.specs.Pieces.{at_most, is_digit, most_lines, number_behind, number_of, place_of, session_of};

use crate::limits::{MOST_LINES, MOST_SESSIONS};

/// The number of a session, as a word writes it.
pub(crate) fn read_session(word: &[u8]) -> Option<u32>
    ensures exact { result ≡ session_of word.now }
{
    read_number(word, MOST_SESSIONS)
}

/// The place of a line in its session, as a word writes it.
pub(crate) fn read_place(word: &[u8]) -> Option<u32>
    ensures exact { result ≡ place_of word.now }
{
    read_number(word, MOST_LINES)
}

fn read_number(word: &[u8], most: u32) -> Option<u32>
    requires { most ≤ most_lines }
    ensures exact { result ≡ at_most most (number_of word.now) }
{
    match word {
        [] | [b'0', ..] => None,
        _ => read_digits(word, most),
    }
}

fn read_digits(word: &[u8], most: u32) -> Option<u32>
    requires { most ≤ most_lines }
    ensures exact { result ≡ at_most most (number_behind 0 word.now) }
{
    let mut number = 0;
    for digit in word {
        if !is_digit(*digit) {
            return None;
        }
        number = number * 10 + u32::from(*digit - b'0');
        if number > most {
            return None;
        }
    }
    Some(number)
}

fn is_digit(byte: u8) -> bool
    ensures exact { result ≡ is_digit byte }
{
    byte >= b'0' && byte <= b'9'
}
