// Laws of writes and readings.
ghost use Rattle.sinew_laws.specs.Commits.{HoldsOneThing, IsOfAQuestion, IsToldByItsRows, LeavesOneThing};

/// Law: a write of a text by a caller over commits leaves one list of commits, and one reply.
pub fn a_write_leaves_one_thing()
    ensures { LeavesOneThing }
{}

/// Law: readings of one text under the same references at one number, over commits of which the first so many are the same,
/// have read the same rows, once both have read.
pub fn readings_of_one_number_hold_one_thing()
    ensures { HoldsOneThing }
{}

/// Law: readings of one text under the same references that have read the same rows are told the same, each over the commits
/// that it is made over.
pub fn what_was_read_decides_what_is_told()
    ensures { IsToldByItsRows }
{}

/// Law: a reading that agrees with commits is one of a question.
pub fn readings_are_of_questions()
    ensures { IsOfAQuestion }
{}
