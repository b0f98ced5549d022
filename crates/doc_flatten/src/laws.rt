// Laws of the definitions, for the crates above.
ghost use Rattle.std.specs.Prelude.{◌≡◌, ◌≤◌, ◌*◌, ℕ, List, length, Ok, All};
ghost use Rattle.doc_values.specs.Doc.{Fields};
ghost use Rattle.doc_values.specs.Weight.{weight_of};
ghost use Rattle.doc_flatten.specs.Documents.{documents_of, IsWithinLimits};
ghost use Rattle.doc_flatten.specs.Lines.{HasOneLineArrays};

/// Each document of a text has its names ascending, its numbers in 64 bits and at most 4,096 fields.
pub fn documents_keep_the_limits()
    ensures { (text : List ℕ) (docs : List Fields) → documents_of text ≡ Ok docs
        → All IsWithinLimits docs }
{}

/// The arrays of each document of a text stay on their line.
pub fn document_arrays_are_one_line()
    ensures { (text : List ℕ) (docs : List Fields) → documents_of text ≡ Ok docs
        → All HasOneLineArrays docs }
{}

/// No document of a text weighs more than 16 times the length of the text.
pub fn documents_are_light()
    ensures { (text : List ℕ) (docs : List Fields) → documents_of text ≡ Ok docs
        → All (λ doc. weight_of doc ≤ 16 * length text) docs }
{}
