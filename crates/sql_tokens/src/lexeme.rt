ghost use Rattle.std.specs.Prelude.{◌≡◌};
ghost use Rattle.sql_tokens.specs.Scan.{lexeme};

use crate::token_sort::TokenSort;

/// A token wherever it stands: its sort, and how many bytes it takes.
#[derive(Clone, Copy)]
pub(crate) struct Lexeme {
    pub(crate) sort: TokenSort,
    pub(crate) len: usize,
}

impl Lexeme {
    pub(crate) fn new(sort: TokenSort, len: usize) -> Lexeme
        ensures exact { result ≡ lexeme sort len }
    {
        Lexeme { sort, len }
    }
}
