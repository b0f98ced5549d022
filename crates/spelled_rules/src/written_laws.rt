ghost use Rattle.std.specs.Prelude.{◌≡◌, ℕ, List, Some};
ghost use Rattle.sql_tree.specs.declared.statement.Statement.{Statement};
ghost use Rattle.sql_grammar.specs.StatementReader.{statement_of};
ghost use Rattle.type_rules.specs.Written.{IsWritten};

use sql_grammar::a_text_spells_what_is_read;

/// Law: the statement that is read in a text is one of which the rules may be asked.
pub fn what_is_spelled_is_written()
    ensures law { (text : List ℕ) (s : Statement) → statement_of text ≡ Some s → IsWritten s }
{
    a_text_spells_what_is_read();
}
