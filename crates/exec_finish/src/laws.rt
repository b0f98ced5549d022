// Laws of the definitions, for the crates above.
ghost use Rattle.std.specs.Prelude.{◌≡◌, ◌↔◌, ℕ, Bool, true, List, Option, All};
ghost use Rattle.std.specs.Ordering.{is_lt};
ghost use Rattle.std.specs.List.Sorted.{IsPermutation, IsSortedBy, IsStableBy};
ghost use Rattle.row_columns.specs.Contents.{Output};
ghost use Rattle.exec_finish.specs.Distinct.{is_alike};
ghost use Rattle.exec_finish.specs.Order.{row_order, ordered};
ghost use Rattle.exec_finish.specs.Answer.{answer_text, finished};
ghost use Rattle.exec_finish.specs.Lines.{IsLines, HasOneLineValues};

use doc_values::printed_values_are_one_line;

/// An answer whose arrays keep to their lines is whole lines, none of which begins with a mark.
pub fn answers_are_lines()
    ensures text { (star : Bool) (rows : List Output) → All HasOneLineValues rows → IsLines (answer_text star rows) }
    ensures finished { (is_distinct : Bool) (descending : List Bool) (limit : Option ℕ) (star : Bool) (rows : List Output) → All HasOneLineValues rows → IsLines (finished is_distinct descending limit star rows) }
{
    printed_values_are_one_line();
}

/// Rows in order are the rows that were given, their keys never fall, and rows with equal keys stay in their order. No
/// other list is so.
pub fn sorting_is_stable()
    ensures same { (descending : List Bool) (rows : List Output) → IsPermutation rows (ordered descending rows) }
    ensures rises { (descending : List Bool) (rows : List Output) → IsSortedBy (λ r s. is_lt (row_order descending r s)) (ordered descending rows) }
    ensures stable { (descending : List Bool) (rows : List Output) → IsStableBy (λ r s. is_lt (row_order descending r s)) rows (ordered descending rows) }
    ensures only { (descending : List Bool) (rows others : List Output) → IsSortedBy (λ r s. is_lt (row_order descending r s)) others → IsStableBy (λ r s. is_lt (row_order descending r s)) rows others → others ≡ ordered descending rows }
{}

/// Rows are alike exactly where their items and their documents are equal.
pub fn rows_alike_are_equal()
    ensures { (r s : Output) → (is_alike r s ≡ true) ↔ ((r.items ≡ s.items) × (r.doc ≡ s.doc)) }
{}
