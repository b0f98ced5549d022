ghost use Rattle.std.specs.Prelude.{◌≡◌};
ghost use Rattle.std.specs.List.{list_all, prefix_len, suffix_len};
ghost use Rattle.sql_tokens.specs.Ends.{behind_word, skip_space, trim, word_in};
ghost use Rattle.sql_tokens.specs.Forms.{is_space, is_word, is_word_byte};

use crate::bytes::{is_space, is_word_byte, is_word_start};
use crate::lengths::word_len;

/// The longest run of letters, digits and underscores past the white space that stands first, and what follows it.
pub fn split_word(text: &str) -> (&str, &str)
    ensures word { result.0.now ≡ word_in text.now }
    ensures behind { result.1.now ≡ behind_word text.now }
{
    let text = skip_space(text);
    text.split_at(word_len(text.as_bytes()))
}

/// The text without white space at both ends.
pub fn trim(text: &str) -> &str
    ensures exact { result.now ≡ trim text.now }
{
    let text = skip_space(text);
    &text[..text.len() - space_len_at_end(text)]
}

/// Whether the text is a word.
pub fn is_word(text: &str) -> bool
    ensures exact { result ≡ is_word text.now }
{
    match text.as_bytes() {
        [first, more @ ..] => is_word_start(*first) && goes_on_word(more),
        [] => false,
    }
}

/// Whether a word may go on with the bytes.
fn goes_on_word(bytes: &[u8]) -> bool
    ensures exact { result ≡ list_all is_word_byte bytes.now }
{
    bytes.iter().all(|byte| is_word_byte(*byte))
}

/// The text from the first byte on that is no white space.
fn skip_space(text: &str) -> &str
    ensures exact { result.now ≡ skip_space text.now }
{
    &text[space_len(text)..]
}

/// How many bytes of white space stand first.
fn space_len(text: &str) -> usize
    ensures exact { result ≡ prefix_len is_space text.now }
{
    text.bytes().take_while(|byte| is_space(*byte)).count()
}

/// How many bytes of white space stand last.
fn space_len_at_end(text: &str) -> usize
    ensures exact { result ≡ suffix_len is_space text.now }
{
    text.as_bytes()
        .iter()
        .rev()
        .take_while(|byte| is_space(**byte))
        .count()
}
