// Laws of symbols and of kinds.
ghost use Rattle.sinew_laws.specs.Kinds.{ComparesOneKind, GivesWhatIsWanted, HasFittingParts, HaveMarks, IsUnknownAcrossKinds};

use doc_values::values_are_in_total_order;

/// Law: each symbol stands for a mark by `mark_of_symbol`, and no other bytes do.
pub fn each_symbol_has_a_mark()
    ensures { HaveMarks }
{}

/// Law: a term that keeps the rule of kinds where a kind is wanted of it means a value of that kind there, or NULL.
pub fn values_are_of_the_wanted_kind()
    ensures { GivesWhatIsWanted }
{}

/// Law: where a term keeps the rule of kinds, a part of which it wants a kind keeps it too, and means one of that kind, or NULL.
pub fn parts_are_of_the_wanted_kind()
    ensures { HasFittingParts }
{}

/// Law: where a term keeps the rule of kinds, so do parts that it compares, as the sides of a comparison, and they mean values
/// of one kind if a side has one by itself.
pub fn comparisons_are_of_one_kind()
    ensures { ComparesOneKind }
{}

/// Law: the comparison of two values is unknown exactly where their kinds differ, whatever the sign.
pub fn comparisons_of_other_kinds_are_unknown()
    ensures { IsUnknownAcrossKinds }
{
    values_are_in_total_order();
}
