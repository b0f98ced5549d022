ghost use Rattle.std.specs.Prelude.{All};
ghost use Rattle.sql_tokens.specs.Forms.{IsToken};
ghost use Rattle.sql_tokens.specs.Tokens.{Stands};

use sql_tokens::{Token, TokenFault, TokenSort, numeral_value, quoted_name, text_value, tokens};
use std::alloc::{AllocError, Global};
use std::test::Fail;

/// The tokens with a space between them, each as its sort's letter and what it means.
fn printed(alloc: Global, text: &str, found: &[Token]) -> Result<String, AllocError>
    requires { All (Stands text.now) found.now }
{
    let mut out = String::new(alloc);
    for token in found {
        if !out.is_empty() {
            out.push(' ')?;
        }
        let one = meant(alloc, token.sort, token.written(text))?;
        out.push_str(one.as_str())?;
    }
    Ok(out)
}

/// A token's letter and what it means.
fn meant(alloc: Global, sort: TokenSort, written: &str) -> Result<String, AllocError>
    requires { IsToken sort written.now }
{
    match sort {
        TokenSort::Word => format!(in alloc; "W:{written}"),
        TokenSort::Quoted => format!(in alloc; "Q:{}", quoted_name(written)),
        TokenSort::Numeral => format!(in alloc; "N:{}", numeral_value(written)),
        TokenSort::Text => format!(in alloc; "T:{}", text_value(alloc, written)?),
        TokenSort::Symbol => format!(in alloc; "S:{written}"),
    }
}

/// The tokens that a text has, or `-`.
fn told(alloc: Global, text: &str) -> Result<String, Fail> {
    match tokens(alloc, text) {
        Ok(found) => Ok(printed(alloc, text, &found)?),
        Err(TokenFault::Syntax) => Ok(String::from_str(alloc, "-")?),
        Err(TokenFault::Memory) => Ok(String::from_str(alloc, "memory")?),
    }
}

/// Bytes of one kind between quotes.
fn quoted(alloc: Global, quote: char, byte: char, len: usize) -> Result<String, AllocError> {
    let mut out = String::new(alloc);
    out.push(quote)?;
    for _ in 0..len {
        out.push(byte)?;
    }
    out.push(quote)?;
    Ok(out)
}

// Texts, and the tokens that they have.
const TEXTS: [(&str, &str); 70] = [
    ("", ""),
    (" \t\r\n", ""),
    ("a", "W:a"),
    ("_", "W:_"),
    ("SELECT _a9 Z_z", "W:SELECT W:_a9 W:Z_z"),
    ("a\rb", "W:a W:b"),
    ("\r\na\t\n b \r", "W:a W:b"),
    ("a.b.c", "W:a S:. W:b S:. W:c"),
    ("a_1(b)", "W:a_1 S:( W:b S:)"),
    ("aé", "-"),
    ("é", "-"),
    ("a\u{b}b", "-"),
    ("a\u{a0}b", "-"),
    ("a#", "-"),
    ("a\\b", "-"),
    ("a\u{0}", "-"),
    ("\"a\"", "Q:a"),
    ("\"a.b.c\"", "Q:a.b.c"),
    ("\"é ü\"x", "Q:é ü W:x"),
    ("\"a\\\"", "Q:a\\"),
    ("\"it's ;\"\"b\"", "Q:it's ; Q:b"),
    ("\" \"", "Q: "),
    ("\"\u{7f}\"", "Q:\u{7f}"),
    ("\"\"", "-"),
    ("\"a", "-"),
    ("\"", "-"),
    ("\".\"", "-"),
    ("\"a.\"", "-"),
    ("\".a\"", "-"),
    ("\"a..b\"", "-"),
    ("\"a\tb\"", "-"),
    ("\"a\u{1f}\"", "-"),
    ("\"a\"\"", "-"),
    ("0", "N:0"),
    ("007", "N:7"),
    ("9223372036854775807", "N:9223372036854775807"),
    ("9223372036854775808", "N:9223372036854775808"),
    ("9223372036854775809", "-"),
    (
        "00000000000000000000009223372036854775808",
        "N:9223372036854775808",
    ),
    ("18446744073709551616", "-"),
    ("1 2", "N:1 N:2"),
    ("1.5", "N:1 S:. N:5"),
    ("-1", "S:- N:1"),
    ("12a", "-"),
    ("12_", "-"),
    ("12\"a\"", "N:12 Q:a"),
    ("12é", "-"),
    ("''", "T:"),
    ("'a'", "T:a"),
    ("'it''s'", "T:it's"),
    ("''''", "T:'"),
    ("''''''", "T:''"),
    ("'a''", "-"),
    ("'a' 'b'", "T:a T:b"),
    ("'a'b", "T:a W:b"),
    ("'é\"\r\n\u{1};'", "T:é\"\r\n\u{1};"),
    ("'", "-"),
    ("'a", "-"),
    ("'''", "-"),
    ("( ) , . ; * + - =", "S:( S:) S:, S:. S:; S:* S:+ S:- S:="),
    ("<><=>=!=<>", "S:<> S:<= S:>= S:!= S:<>"),
    ("< > <> < = ! =", "-"),
    ("< = > =", "S:< S:= S:> S:="),
    ("<<=>>==", "S:< S:<= S:> S:>= S:="),
    ("=<", "S:= S:<"),
    ("!", "-"),
    ("!<", "-"),
    ("a<=7", "W:a S:<= N:7"),
    ("a/b", "-"),
    ("a--b", "W:a S:- S:- W:b"),
];

#[test]
fn texts_have_their_tokens(rt: HostRuntime) -> Result<(), Fail> {
    for (text, want) in TEXTS {
        assert_eq!(rt; told(rt.alloc(), text)?.as_str(), want);
    }
    Ok(())
}

#[test]
fn the_limits_are_met(rt: HostRuntime) -> Result<(), Fail> {
    let alloc = rt.alloc();
    assert!(rt; tokens(alloc, quoted(alloc, '"', 'a', 255)?.as_str()).is_ok());
    assert!(rt; tokens(alloc, quoted(alloc, '"', 'a', 256)?.as_str()).is_err());
    assert!(rt; tokens(alloc, quoted(alloc, '"', 'é', 127)?.as_str()).is_ok());
    assert!(rt; tokens(alloc, quoted(alloc, '"', 'é', 128)?.as_str()).is_err());
    assert!(rt; tokens(alloc, quoted(alloc, '\'', 'a', 1_048_574)?.as_str()).is_ok());
    assert!(rt; tokens(alloc, quoted(alloc, '\'', 'a', 1_048_575)?.as_str()).is_err());
    assert!(rt; tokens(alloc, quoted(alloc, ' ', ' ', 1_048_574)?.as_str()).is_ok());
    assert!(rt; tokens(alloc, quoted(alloc, ' ', ' ', 1_048_575)?.as_str()).is_err());
    Ok(())
}
