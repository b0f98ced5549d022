ghost use Rattle.std.specs.Prelude.{◌≡◌, ◌++◌, OnOk};
ghost use Rattle.sql_syntax.specs.PrintingQuery.{alias_printed, table_printed, tables_printed};
ghost use Rattle.sql_syntax.specs.PrintingText.{spaced};

use crate::print_terminals::{write_mark, write_mark_before, write_word};
use doc_values::Utf;
use sql_grammar::Mark;
use sql_tree::Table;
use std::alloc::AllocError;

/// Writes an alias, if there is one.
pub(crate) fn write_alias(out: &mut Vec<u8>, alias: &Option<Utf>) -> Result<(), AllocError>
    ensures ok { OnOk result (out.new.items ≡ out.old.items ++ spaced (alias_printed alias.now)) }
{
    if let Some(alias) = alias {
        write_mark(out, Mark::As)?;
        write_word(out, alias.text())?;
    }
    Ok(())
}

/// Writes a table.
fn write_table(out: &mut Vec<u8>, table: &Table) -> Result<(), AllocError>
    ensures ok { OnOk result (out.new.items ≡ out.old.items ++ spaced (table_printed table.now)) }
{
    write_word(out, table.collection.text())?;
    write_alias(out, &table.alias)?;
    Ok(())
}

/// Writes the tables.
pub(crate) fn write_tables(out: &mut Vec<u8>, tables: &[Table]) -> Result<(), AllocError>
    ensures ok { OnOk result (out.new.items ≡ out.old.items ++ spaced (tables_printed tables.now)) }
{
    for i in 0..tables.len() {
        write_mark_before(out, Mark::Comma, i)?;
        write_table(out, &tables[i])?;
    }
    Ok(())
}
