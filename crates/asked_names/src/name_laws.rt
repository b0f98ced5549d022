ghost use Rattle.std.specs.Prelude.{◌≡◌, ℕ, List, Ok, All};
ghost use Rattle.doc_values.specs.Doc.{Fields};
ghost use Rattle.doc_flatten.specs.Documents.{documents_of};
ghost use Rattle.asked_names.specs.Asked.{CanBeAskedFor};

use sql_tokens::a_value_is_written_between_quotes;

/// Law: each field name of each document of a text is one that a question can ask for.
pub fn what_is_loaded_can_be_asked_for()
    ensures law { (json : List ℕ) (documents : List Fields) → documents_of json ≡ Ok documents → All (λ document. All (λ field. CanBeAskedFor field.0) document) documents }
{
    a_value_is_written_between_quotes();
}
