//! The tokens of a statement's text: words, quoted names, numerals, texts and symbols, each with its span.
//!
//! A text has one list of tokens at most; `tokens` gives no other, and says that there is none only where that is so.
//! This crate knows nothing of keywords, of grammar or of what a statement means.
//! Read `specs/Forms.antt` first, then `specs/Tokens.antt`.
#![tactic(auto)]

mod bytes;
mod ends;
mod laws;
mod lengths;
mod lexeme;
mod scanning;
mod token;
mod token_fault;
mod token_sort;
mod values;

pub use ends::{is_word, split_word, trim};
pub use laws::{
    a_text_has_one_list_of_tokens, a_value_is_written_between_quotes, each_token_stands,
    no_longer_token_stands, the_tokens_are_those_found,
};
pub use scanning::tokens;
pub use token::Token;
pub use token_fault::TokenFault;
pub use token_sort::TokenSort;
pub use values::{numeral_value, quoted_name, text_value};
