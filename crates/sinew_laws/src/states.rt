// Laws of the definitions of states.
ghost use Rattle.sinew_laws.specs.States.{HasOnePlaceForAPair, HasPairsOfAllFields, IsAMap, KeepsItsLimits, KeepsRowsInOrder, NumbersRowsBelowTheNext, NumbersRowsOn, WhatStandsIsADocument};

/// Law: in a state that keeps the rules each collection is the one that its name finds.
pub fn names_find_their_collections()
    ensures { IsAMap }
{}

/// Law: a state that keeps the rules has at most 256 collections, and each has at most 65,536 pairs and 2,097,152 versions.
pub fn states_keep_their_limits()
    ensures { KeepsItsLimits }
{}

/// Law: however many documents are put behind the rows of a collection that keeps the rules, the numbers of its rows
/// ascend.
pub fn rows_ascend()
    ensures { KeepsRowsInOrder }
{}

/// Law: in a collection that keeps the rules each pair is found at its place, and at no other one.
pub fn pairs_are_told_apart()
    ensures { HasOnePlaceForAPair }
{}

/// Law: what a question finds in a state that keeps the rules is a document within its limits, and weighs at most
/// 16,777,216 bytes.
pub fn what_stands_is_a_document()
    ensures { WhatStandsIsADocument }
{}

/// Law: in a collection that keeps the rules no document has a pair that is new to it.
pub fn documents_have_their_pairs()
    ensures { HasPairsOfAllFields }
{}

/// Law: in the state after any commits the number of a row is at least its place and below that of the next row, which is
/// at most that of the versions written. An accepted load puts a row for each of its documents behind the others, in their
/// order, numbered on from the next row's number; the first load of a collection numbers them from 0 on.
pub fn rows_are_numbered_on()
    ensures below { NumbersRowsBelowTheNext }
    ensures loads { NumbersRowsOn }
{}
