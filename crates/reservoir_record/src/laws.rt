// Laws of the definitions, for the crates above.
ghost use Rattle.reservoir_record.specs.Laws.{HasOneSpelling, HasOneList, HasPartsOfOneMore, HasFieldsInPlace};

/// A list of fields within the bounds of a record has one spelling.
pub fn a_list_has_one_spelling()
    ensures { HasOneSpelling }
{}

/// A spelling has one list of fields.
pub fn a_spelling_has_one_list()
    ensures { HasOneList }
{}

/// The parts of some fields, each with its part of one more field behind it, are the parts of all.
pub fn parts_of_one_more()
    ensures { HasPartsOfOneMore }
{}

/// What stands in the table of a spelling is its list of fields.
pub fn a_spelling_has_its_fields_in_place()
    ensures { HasFieldsInPlace }
{}
