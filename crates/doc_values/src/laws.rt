// Laws of the definitions, for the crates above.
ghost use Rattle.std.specs.Prelude.{Option, IfSome};
ghost use Rattle.doc_values.specs.declared.value.Value.{Value};
ghost use Rattle.doc_values.specs.Laws.{PutsAlone, RemovesAlone, AreSameByNames, StaysDocument};
ghost use Rattle.std.specs.Ordering.{is_lt};
ghost use Rattle.std.specs.Cmp.{IsTotalOrder, IsStrictWeakOrder};
ghost use Rattle.doc_values.specs.Order.{value_order, total_order, TellsApart, ComparesWithinKinds};
ghost use Rattle.doc_values.specs.Value.{printed, IsOneLine, HasOneLineArray};

/// A document is a map from names to values, and nothing more.
pub fn documents_are_maps()
    ensures puts { PutsAlone }
    ensures removes { RemovesAlone }
    ensures same { AreSameByNames }
    ensures kept { StaysDocument }
{}

/// A printed value stays on its line, if an array does.
pub fn printed_values_are_one_line()
    ensures { (value : Option Value) → IfSome value HasOneLineArray → IsOneLine (printed value) }
{}

/// Values are in one total order, which tells apart those that differ.
pub fn values_are_in_total_order()
    ensures total { IsTotalOrder total_order }
    ensures values { IsTotalOrder value_order }
    ensures sorts { IsStrictWeakOrder (λ a b. is_lt (total_order a b)) }
    ensures apart { TellsApart }
    ensures kinds { ComparesWithinKinds }
{}
