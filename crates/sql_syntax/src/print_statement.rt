ghost use Rattle.std.specs.Prelude.{◌≡◌, ◌++◌, ◌∷◌, codes, map, OnOk, OnErr};
ghost use Rattle.sql_grammar.specs.declared.mark.Mark.TheVariants as marks;
ghost use Rattle.sql_grammar.specs.declared.terminal.Terminal.TheVariants as terminal;
ghost use Rattle.sql_syntax.specs.Printing.{joined_by};
ghost use Rattle.sql_syntax.specs.PrintingQuery.{behind_printed, set_printed};
ghost use Rattle.sql_syntax.specs.PrintingText.{json_printed, sets_printed, spaced, statement_printed};

use crate::print_queries::{write_behind_mark, write_expression, write_question};
use crate::print_terminals::{write_mark, write_mark_before, write_name, write_word};
use sql_grammar::Mark;
use sql_tree::{Set, Statement, Term};
use std::alloc::AllocError;

/// Appends the text of a statement: keywords in capitals, single spaces, and no brackets that could be left out. It reads
/// as the statement again where some text spells that and what is printed has at most 1,048,576 bytes.
pub fn print(statement: &Statement, out: &mut Vec<u8>) -> Result<(), AllocError>
    ensures ok { OnOk result (out.new.items ≡ out.old.items ++ statement_printed statement.now) }
    ensures memory { OnErr result (out.new.items ≡ out.old.items) }
{
    let mut text = Vec::new(*out.allocator());
    write_statement(&mut text, statement)?;
    out.extend_from_slice(text.as_slice())?;
    Ok(())
}

/// Writes a statement into a text that is empty.
fn write_statement(out: &mut Vec<u8>, statement: &Statement) -> Result<(), AllocError>
    ensures ok { OnOk result (out.new.items ≡ out.old.items ++ statement_printed statement.now) }
{
    match statement {
        Statement::Load { collection, json } => write_load(out, collection.text(), json.text())?,
        Statement::Select(question) => {
            out.extend_from_slice(b"SELECT")?;
            write_question(out, question)?;
        }
        Statement::Update {
            collection,
            sets,
            test,
        } => {
            out.extend_from_slice(b"UPDATE")?;
            write_update(out, collection.text(), sets.as_slice(), test)?;
        }
        Statement::Delete { collection, test } => {
            out.extend_from_slice(b"DELETE")?;
            write_mark(out, Mark::From)?;
            write_word(out, collection.text())?;
            write_behind_mark(out, Mark::Where, test)?;
        }
    }
    Ok(())
}

/// Writes a load.
fn write_load(out: &mut Vec<u8>, collection: &str, json: &str) -> Result<(), AllocError>
    ensures ok { OnOk result (out.new.items ≡ out.old.items ++ (codes "LOAD " ++ (collection.now ++ json_printed json.now))) }
{
    out.extend_from_slice(b"LOAD ")?;
    out.extend_from_slice(collection.as_bytes())?;
    if !json.is_empty() {
        out.push(b' ')?;
        out.extend_from_slice(json.as_bytes())?;
    }
    Ok(())
}

/// Writes what stands behind UPDATE.
fn write_update(
    out: &mut Vec<u8>,
    collection: &str,
    sets: &[Set],
    test: &Option<Term>,
) -> Result<(), AllocError>
    ensures ok { OnOk result (out.new.items ≡ out.old.items ++ spaced (terminal.Word collection.now ∷ (sets_printed sets.now ++ behind_printed marks.Where test.now))) }
{
    write_word(out, collection)?;
    write_sets(out, sets)?;
    write_behind_mark(out, Mark::Where, test)?;
    Ok(())
}

/// Writes a column that an update writes.
fn write_set(out: &mut Vec<u8>, set: &Set) -> Result<(), AllocError>
    ensures ok { OnOk result (out.new.items ≡ out.old.items ++ spaced (set_printed set.now)) }
{
    write_name(out, set.name.text())?;
    write_mark(out, Mark::Equal)?;
    write_expression(out, &set.expr)?;
    Ok(())
}

/// Writes columns that an update writes, with commas between them.
fn write_listed_sets(out: &mut Vec<u8>, sets: &[Set]) -> Result<(), AllocError>
    ensures ok { OnOk result (out.new.items ≡ out.old.items ++ spaced (joined_by marks.Comma (map set_printed sets.now))) }
{
    for i in 0..sets.len() {
        write_mark_before(out, Mark::Comma, i)?;
        write_set(out, &sets[i])?;
    }
    Ok(())
}

/// Writes what an update writes.
fn write_sets(out: &mut Vec<u8>, sets: &[Set]) -> Result<(), AllocError>
    ensures ok { OnOk result (out.new.items ≡ out.old.items ++ spaced (sets_printed sets.now)) }
{
    write_mark(out, Mark::Set)?;
    write_listed_sets(out, sets)?;
    Ok(())
}
