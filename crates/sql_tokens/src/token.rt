ghost use Rattle.std.specs.Prelude.{◌≡◌};
ghost use Rattle.sql_tokens.specs.Tokens.{Stands, written};

use crate::token_sort::TokenSort;

/// A token of a text: its sort, and the bytes that it takes, from one up to another.
#[derive(Clone, Copy, Debug, PartialEq, Eq)]
pub struct Token {
    pub sort: TokenSort,
    pub from: u32,
    pub to: u32,
}

impl Token {
    /// What is written at the token in its text.
    pub fn written<'a>(&self, text: &'a str) -> &'a str
        requires { Stands text.now self.now }
        ensures exact { result.now ≡ written text.now self.now }
    {
        &text[self.from as usize..self.to as usize]
    }
}
