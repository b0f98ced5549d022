// Laws of the definitions, for the crates above.
ghost use Rattle.row_versions.specs.Shows.{AppendsShow, EndingsShow, RollBacksShow, EmptiesShow, LatestShow, LatestStays};

/// Law: a version that is appended is what its row shows from its commit on.
pub fn appends_show()
    ensures law { AppendsShow }
{}

/// Law: from the end of its newest version on a row shows nothing.
pub fn endings_show()
    ensures law { EndingsShow }
{}

/// Law: a roll back shows what stood before the commit, and takes back what was done at it.
pub fn roll_backs_show()
    ensures law { RollBacksShow }
{}

/// Law: an emptied version is seen where it was.
pub fn empties_show()
    ensures law { EmptiesShow }
{}

/// Law: where nothing begins or ends after a commit, rows show their newest versions from it on.
pub fn latest_show()
    ensures law { LatestShow }
{}

/// Law: nothing begins or ends after a commit, so long as nothing is done at a later one.
pub fn latest_stays()
    ensures law { LatestStays }
{}
