ghost use Rattle.std.specs.Prelude.{All, ◌≡◌, ◌+◌, ◌≤◌, ◌^◌, ◌<◌, Some, None, IfOk, IfErr};
ghost use Rattle.sql_tokens.specs.Tokens.{Stands};
ghost use Rattle.sql_tokens.specs.Scan.{first_lexeme, token_at, tokens_of};
ghost use Rattle.sql_tokens.specs.declared.token_fault.TokenFault.TheVariants.{Syntax};

use crate::bytes::{is_space, is_word_start};
use crate::lengths::{numeral_len, quoted_len, symbol_len, text_len, word_len};
use crate::lexeme::Lexeme;
use crate::token::Token;
use crate::token_fault::TokenFault;
use crate::token_sort::TokenSort;
use std::alloc::Global;

/// The most bytes of a text that has tokens.
const MOST_BYTES: usize = 1_048_576;

/// The tokens of a text.
pub fn tokens(alloc: Global, text: &str) -> Result<Vec<Token>, TokenFault>
    ensures ok { IfOk result (λ found. tokens_of text.now ≡ Some found.items) }
    ensures stand { IfOk result (λ found. All (Stands text.now) found.items) }
    ensures syntax { IfErr result (λ fault. fault ≡ Syntax → tokens_of text.now ≡ None) }
{
    let bytes = text.as_bytes();
    if bytes.len() > MOST_BYTES {
        return Err(TokenFault::Syntax);
    }
    let mut found = Vec::new(alloc);
    let mut at = 0;
    while at < bytes.len() {
        if is_space(bytes[at]) {
            at += 1;
        } else {
            let Some(lexeme) = first_lexeme(&bytes[at..]) else {
                return Err(TokenFault::Syntax);
            };
            found.push(Token {
                sort: lexeme.sort,
                from: at as u32,
                to: (at + lexeme.len) as u32,
            })?;
            at += lexeme.len;
        }
    }
    Ok(found)
}

/// The token with which the bytes begin.
fn first_lexeme(bytes: &[u8]) -> Option<Lexeme>
    ensures exact { result ≡ first_lexeme bytes.now }
{
    let [first, rest @ ..] = bytes else {
        return None;
    };
    if is_word_start(*first) {
        Some(Lexeme::new(TokenSort::Word, word_len(bytes)))
    } else if first.is_ascii_digit() {
        Some(Lexeme::new(TokenSort::Numeral, numeral_len(bytes)?))
    } else if *first == b'"' {
        Some(Lexeme::new(TokenSort::Quoted, 1 + quoted_len(rest)?))
    } else if *first == b'\'' {
        Some(Lexeme::new(TokenSort::Text, 1 + text_len(rest)?))
    } else {
        Some(Lexeme::new(TokenSort::Symbol, symbol_len(bytes)?))
    }
}
