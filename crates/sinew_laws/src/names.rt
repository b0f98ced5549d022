// Laws of names.
ghost use Rattle.sinew_laws.specs.Names.{NamesOneOfSeveral};

/// Law: a reference that is bound where two or more tables are in scope has a qualifier.
pub fn one_of_several_tables_is_named()
    ensures { NamesOneOfSeveral }
{}
