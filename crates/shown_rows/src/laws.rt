// The law of the definitions, for the crates above.
ghost use Rattle.shown_rows.specs.Follow.{RowsFollow};

/// Law: the list of rows follows what each row shows.
pub fn rows_follow_their_documents()
    ensures law { RowsFollow }
{}
