ghost use Rattle.std.specs.Prelude.{◌≡◌, IfOk, string_bytes};
ghost use Rattle.sql_tokens.specs.Forms.{IsToken};
ghost use Rattle.sql_tokens.specs.Values.{numeral_value, quoted_name, text_value};
ghost use Rattle.sql_tokens.specs.declared.token_sort.TokenSort.TheVariants.{Numeral, Quoted, Text};

use std::alloc::{AllocError, Global};

/// The name in a quoted token.
pub fn quoted_name(token: &str) -> &str
    requires { IsToken Quoted token.now }
    ensures exact { result.now ≡ quoted_name token.now }
{
    &token[1..token.len() - 1]
}

/// The value of a numeral.
pub fn numeral_value(token: &str) -> u64
    requires { IsToken Numeral token.now }
    ensures exact { result ≡ numeral_value token.now }
{
    match token.parse::<u64>() {
        Ok(value) => value,
        Err(_) => unreachable!(),
    }
}

/// The value of a text token: what is between its quotes, one quote for each two.
pub fn text_value(alloc: Global, token: &str) -> Result<String, AllocError>
    requires { IsToken Text token.now }
    ensures ok { IfOk result (λ value. string_bytes value ≡ text_value token.now) }
{
    token[1..token.len() - 1].replace(alloc, "''", "'")
}
