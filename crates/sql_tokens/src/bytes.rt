ghost use Rattle.std.specs.Prelude.{◌≡◌};
ghost use Rattle.sql_tokens.specs.Forms.{is_segment_byte, is_sign, is_sign_pair, is_space, is_word_byte, is_word_start};

/// Whether the byte is a space, a tab, a carriage return or a line feed.
pub(crate) fn is_space(byte: u8) -> bool
    ensures exact { result ≡ is_space byte }
{
    matches!(byte, b' ' | b'\t' | b'\r' | b'\n')
}

/// Whether a word may begin with the byte.
pub(crate) fn is_word_start(byte: u8) -> bool
    ensures exact { result ≡ is_word_start byte }
{
    byte.is_ascii_alphabetic() || byte == b'_'
}

/// Whether a word may go on with the byte.
pub(crate) fn is_word_byte(byte: u8) -> bool
    ensures exact { result ≡ is_word_byte byte }
{
    is_word_start(byte) || byte.is_ascii_digit()
}

/// Whether the byte may stand in a quoted name, apart from the dots.
pub(crate) fn is_segment_byte(byte: u8) -> bool
    ensures exact { result ≡ is_segment_byte byte }
{
    byte >= b' ' && byte != b'"'
}

/// Whether the byte is a symbol.
pub(crate) fn is_sign(byte: u8) -> bool
    ensures exact { result ≡ is_sign byte }
{
    matches!(
        byte,
        b'(' | b')' | b',' | b'.' | b';' | b'*' | b'+' | b'-' | b'=' | b'<' | b'>'
    )
}

/// Whether the two bytes are a symbol.
pub(crate) fn is_sign_pair(first: u8, second: u8) -> bool
    ensures exact { result ≡ is_sign_pair first second }
{
    matches!((first, second), (b'<', b'>' | b'=') | (b'!' | b'>', b'='))
}
