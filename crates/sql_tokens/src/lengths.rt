ghost use Rattle.std.specs.Prelude.{◌≡◌, ◌≤◌, Some, not, length, nat_le, true, IfSome, IsTrue};
ghost use Rattle.std.specs.Char.{is_ascii_digit};
ghost use Rattle.std.specs.List.{list_all, prefix_len, slice_split};
ghost use Rattle.std.specs.Str.Parse.{digits_value};
ghost use Rattle.sql_tokens.specs.Forms.{is_dot, is_numeral, is_quoted_name, is_segment, is_segment_byte, is_word_byte, most_value};
ghost use Rattle.sql_tokens.specs.Scan.{name_len, numeral_len, quoted_len, symbol_len, text_len};

use crate::bytes::{is_segment_byte, is_sign, is_sign_pair, is_word_byte};

/// The greatest value of a numeral.
const MOST_VALUE: u64 = 9_223_372_036_854_775_808;

/// The most bytes of a quoted name.
const MOST_NAME_BYTES: usize = 255;

/// How many word bytes stand first.
pub(crate) fn word_len(bytes: &[u8]) -> usize
    ensures exact { result ≡ prefix_len is_word_byte bytes.now }
{
    bytes.iter().take_while(|byte| is_word_byte(**byte)).count()
}

/// How many bytes the numeral has that stands first.
pub(crate) fn numeral_len(bytes: &[u8]) -> Option<usize>
    ensures exact { result ≡ numeral_len bytes.now }
{
    let len = word_len(bytes);
    if is_numeral(&bytes[..len]) {
        Some(len)
    } else {
        None
    }
}

fn is_numeral(bytes: &[u8]) -> bool
    ensures exact { result ≡ is_numeral bytes.now }
{
    !bytes.is_empty() && are_digits(bytes) && has_small_value(bytes)
}

fn are_digits(bytes: &[u8]) -> bool
    ensures exact { result ≡ list_all is_ascii_digit bytes.now }
{
    bytes.iter().all(|byte| byte.is_ascii_digit())
}

/// Whether the value of the digits is one that a numeral may have.
fn has_small_value(digits: &[u8]) -> bool
    requires { list_all is_ascii_digit digits.now ≡ true }
    ensures exact { result ≡ nat_le (digits_value 10 digits.now) most_value }
{
    let mut value = 0;
    for digit in digits {
        let more = u64::from(*digit - b'0');
        if value > (MOST_VALUE - more) / 10 {
            return false;
        }
        value = 10 * value + more;
    }
    true
}

/// How many bytes of a text token follow its opening quote, the closing one included.
pub(crate) fn text_len(bytes: &[u8]) -> Option<usize>
    ensures exact { result ≡ text_len bytes.now }
    ensures inside { IfSome result (λ len. len ≤ length bytes.now) }
{
    let mut at = 0;
    while at < bytes.len() {
        if bytes[at] != b'\'' {
            at += 1;
        } else if at + 1 < bytes.len() && bytes[at + 1] == b'\'' {
            at += 2;
        } else {
            return Some(at + 1);
        }
    }
    None
}

/// How many bytes of a quoted name follow its opening quote, the closing one included.
pub(crate) fn quoted_len(bytes: &[u8]) -> Option<usize>
    ensures exact { result ≡ quoted_len bytes.now }
    ensures inside { IfSome result (λ len. len ≤ length bytes.now) }
{
    let len = name_len(bytes);
    if len < bytes.len() && is_quoted_name(&bytes[..len]) {
        Some(len + 1)
    } else {
        None
    }
}

/// How many bytes stand before the first double quote.
fn name_len(bytes: &[u8]) -> usize
    ensures exact { result ≡ name_len bytes.now }
{
    bytes.iter().take_while(|byte| **byte != b'"').count()
}

fn is_quoted_name(name: &[u8]) -> bool
    ensures exact { result ≡ is_quoted_name name.now }
{
    name.len() <= MOST_NAME_BYTES && has_segments(name)
}

/// Whether there are segments between the dots.
fn has_segments(name: &[u8]) -> bool
    ensures exact { result ≡ list_all is_segment (slice_split is_dot name.now) }
{
    name.split(|byte| *byte == b'.')
        .all(|segment| is_segment(segment))
}

fn is_segment(bytes: &[u8]) -> bool
    ensures exact { result ≡ is_segment bytes.now }
{
    !bytes.is_empty() && are_segment_bytes(bytes)
}

fn are_segment_bytes(bytes: &[u8]) -> bool
    ensures exact { result ≡ list_all is_segment_byte bytes.now }
{
    bytes.iter().all(|byte| is_segment_byte(*byte))
}

/// How many bytes the symbol has that stands first.
pub(crate) fn symbol_len(bytes: &[u8]) -> Option<usize>
    ensures exact { result ≡ symbol_len bytes.now }
{
    match bytes {
        [first, second, ..] if is_sign_pair(*first, *second) => Some(2),
        [first, ..] if is_sign(*first) => Some(1),
        _ => None,
    }
}
