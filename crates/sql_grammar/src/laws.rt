ghost use Rattle.std.specs.Prelude.{◌≡◌, ◌↔◌, ℕ, List, Some};
ghost use Rattle.sql_tree.specs.declared.statement.Statement.{Statement};
ghost use Rattle.sql_tokens.specs.Scan.{tokens_of};
ghost use Rattle.sql_grammar.specs.Statement.{Spells};
ghost use Rattle.sql_grammar.specs.StatementReader.{statement_of};

use sql_tokens::the_tokens_are_those_found;

/// Law: the statement that is read in a text is the one that the text spells, and where none is read none is spelled.
pub fn a_text_spells_what_is_read()
    ensures law { (text : List ℕ) (s : Statement) → (statement_of text ≡ Some s) ↔ Spells text s }
{
    the_tokens_are_those_found();
}

/// Law: a text spells one statement at most.
pub fn a_text_spells_one_statement()
    ensures law { (text : List ℕ) (s t : Statement) → Spells text s → Spells text t → s ≡ t }
{
    the_tokens_are_those_found();
}
