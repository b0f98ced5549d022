ghost use Rattle.std.specs.Prelude.{◌≡◌, [], ◌∷◌, ◌++◌, OnOk};
ghost use Rattle.sql_tokens.specs.Forms.{doubled};
ghost use Rattle.sql_grammar.specs.declared.terminal.Terminal.TheVariants as terminal;
ghost use Rattle.sql_syntax.specs.PrintingText.{mark_before, mark_text, spaced, symbol_text};

use itoa::Buffer;
use sql_grammar::Mark;
use std::alloc::AllocError;

/// Writes bytes behind a space.
fn write_spaced(out: &mut Vec<u8>, bytes: &[u8]) -> Result<(), AllocError>
    ensures ok { OnOk result (out.new.items ≡ out.old.items ++ 32 ∷ bytes.now) }
{
    out.push(b' ')?;
    out.extend_from_slice(bytes)?;
    Ok(())
}

/// Writes a word.
pub(crate) fn write_word(out: &mut Vec<u8>, word: &str) -> Result<(), AllocError>
    ensures ok { OnOk result (out.new.items ≡ out.old.items ++ spaced (terminal.Word word.now ∷ [])) }
{
    write_spaced(out, word.as_bytes())?;
    Ok(())
}

/// Writes a name in double quotes.
pub(crate) fn write_name(out: &mut Vec<u8>, name: &str) -> Result<(), AllocError>
    ensures ok { OnOk result (out.new.items ≡ out.old.items ++ spaced (terminal.Quoted name.now ∷ [])) }
{
    write_spaced(out, b"\"")?;
    out.extend_from_slice(name.as_bytes())?;
    out.push(b'"')?;
    Ok(())
}

/// Writes a numeral.
pub(crate) fn write_number(out: &mut Vec<u8>, number: u64) -> Result<(), AllocError>
    ensures ok { OnOk result (out.new.items ≡ out.old.items ++ spaced (terminal.Number number ∷ [])) }
{
    let mut digits = Buffer::new();
    write_spaced(out, digits.format(number).as_bytes())?;
    Ok(())
}

/// Writes bytes with each single quote twice.
fn write_doubled(out: &mut Vec<u8>, bytes: &[u8]) -> Result<(), AllocError>
    ensures ok { OnOk result (out.new.items ≡ out.old.items ++ doubled bytes.now) }
{
    for byte in bytes {
        out.push(*byte)?;
        if *byte == b'\'' {
            out.push(*byte)?;
        }
    }
    Ok(())
}

/// Writes a text in single quotes.
pub(crate) fn write_text(out: &mut Vec<u8>, value: &str) -> Result<(), AllocError>
    ensures ok { OnOk result (out.new.items ≡ out.old.items ++ spaced (terminal.Text value.now ∷ [])) }
{
    write_spaced(out, b"'")?;
    write_doubled(out, value.as_bytes())?;
    out.push(b'\'')?;
    Ok(())
}

/// Writes a reserved word in capitals, or a symbol.
pub(crate) fn write_mark(out: &mut Vec<u8>, mark: Mark) -> Result<(), AllocError>
    ensures ok { OnOk result (out.new.items ≡ out.old.items ++ spaced (terminal.Mark mark ∷ [])) }
{
    write_spaced(out, mark_text(mark).as_bytes())?;
    Ok(())
}

/// Writes a mark, but not before the first part of a list.
pub(crate) fn write_mark_before(
    out: &mut Vec<u8>,
    mark: Mark,
    place: usize,
) -> Result<(), AllocError>
    ensures ok { OnOk result (out.new.items ≡ out.old.items ++ spaced (mark_before mark place)) }
{
    if place > 0 {
        write_mark(out, mark)?;
    }
    Ok(())
}

/// A reserved word in capitals, or a symbol.
fn mark_text(mark: Mark) -> &'static str
    ensures exact { result.now ≡ mark_text mark }
{
    match mark {
        Mark::Select => "SELECT",
        Mark::Distinct => "DISTINCT",
        Mark::From => "FROM",
        Mark::Where => "WHERE",
        Mark::Group => "GROUP",
        Mark::By => "BY",
        Mark::Having => "HAVING",
        Mark::Order => "ORDER",
        Mark::Limit => "LIMIT",
        Mark::As => "AS",
        Mark::Join => "JOIN",
        Mark::Inner => "INNER",
        Mark::Left => "LEFT",
        Mark::Outer => "OUTER",
        Mark::On => "ON",
        Mark::And => "AND",
        Mark::Or => "OR",
        Mark::Not => "NOT",
        Mark::Is => "IS",
        Mark::Null => "NULL",
        Mark::In => "IN",
        Mark::Between => "BETWEEN",
        Mark::Like => "LIKE",
        Mark::Any => "ANY",
        Mark::True => "TRUE",
        Mark::False => "FALSE",
        Mark::Asc => "ASC",
        Mark::Desc => "DESC",
        Mark::Set => "SET",
        _ => symbol_text(mark),
    }
}

/// A symbol, or nothing for a mark that is none.
fn symbol_text(mark: Mark) -> &'static str
    ensures exact { result.now ≡ symbol_text mark }
{
    match mark {
        Mark::Open => "(",
        Mark::Close => ")",
        Mark::Comma => ",",
        Mark::Dot => ".",
        Mark::Semicolon => ";",
        Mark::Star => "*",
        Mark::Plus => "+",
        Mark::Minus => "-",
        Mark::Equal => "=",
        Mark::NotEqual => "<>",
        Mark::Less => "<",
        Mark::LessEqual => "<=",
        Mark::Greater => ">",
        Mark::GreaterEqual => ">=",
        _ => "",
    }
}
