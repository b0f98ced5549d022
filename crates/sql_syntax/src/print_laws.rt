ghost use Rattle.std.specs.Prelude.{◌≤◌, ℕ, List, length};
ghost use Rattle.sql_tree.specs.declared.statement.Statement.{Statement};
ghost use Rattle.sql_tokens.specs.Tokens.{most_statement_bytes};
ghost use Rattle.sql_grammar.specs.Statement.{Spells};
ghost use Rattle.sql_syntax.specs.PrintingText.{statement_printed};

use sql_tokens::a_value_is_written_between_quotes;

/// Law: what is printed of a statement that some text spells, spells it again, where it is not too long for a text.
pub fn what_is_printed_spells_the_statement()
    ensures law { (text : List ℕ) (statement : Statement) → Spells text statement → length (statement_printed statement) ≤ most_statement_bytes → Spells (statement_printed statement) statement }
{
    a_value_is_written_between_quotes();
}
