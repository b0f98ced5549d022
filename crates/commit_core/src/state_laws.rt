// Laws of the definitions, for the crates above.
ghost use Rattle.std.specs.Prelude.{◌≡◌, ◌≤◌, All, ℕ, List};
ghost use Rattle.doc_values.specs.Doc.{Fields};
ghost use Rattle.doc_values.specs.Weight.{weight_of};
ghost use Rattle.doc_flatten.specs.Documents.{IsWithinLimits};
ghost use Rattle.commit_core.specs.Plan.{plan_of, write};
ghost use Rattle.commit_core.specs.Replies.{state_after};
ghost use Rattle.document_records.specs.Limits.{most_weight};
ghost use Rattle.commit_core.specs.State.{IsState};
ghost use Rattle.commit_core.specs.Write.{loads};

use doc_flatten::{documents_are_light, documents_keep_the_limits};
use sql_grammar::a_text_spells_what_is_read;

/// Law: the state after any commits keeps the rules of a state.
pub fn states_keep_the_rules()
    ensures { (texts : List (List ℕ)) → IsState (state_after texts) }
{
    loads_are_light();
}

/// Law: the documents of a load keep the limits of documents, and none weighs more than a text may give.
pub fn loads_are_light()
    ensures { (text name : List ℕ) (documents : List Fields) → plan_of text ≡ write (loads name documents)
        → All IsWithinLimits documents × All (λ document. weight_of document ≤ most_weight) documents }
{
    documents_keep_the_limits();
    documents_are_light();
    a_text_spells_what_is_read();
}
