/// What a token is.
#[derive(Clone, Copy, Debug, PartialEq, Eq)]
pub enum TokenSort {
    /// A letter or `_`, and letters, digits and `_`.
    Word,
    /// A name in double quotes.
    Quoted,
    /// Digits.
    Numeral,
    /// Characters in single quotes.
    Text,
    /// A sign of one character or two.
    Symbol,
}
