// Laws of legal runs.
ghost use Rattle.std.specs.Prelude.{List};
ghost use Rattle.script_reader.specs.Script.{IsScript};
ghost use Rattle.script_reader.specs.declared.line.Line.{Line};
ghost use Rattle.sinew_laws.specs.Runs.{HasAcceptedWritesAlone, HasNumbersThatNeverFall, HasNumbersWithinCommits, HasSessionsInOrder};

/// Law: in a legal run the number of each line is at most that of all commits.
pub fn numbers_are_at_most_all_commits()
    ensures { (lines : List Line) → HasNumbersWithinCommits lines }
{}

/// Law: in a legal run a line stands in the order exactly where its reply is that of an accepted write.
pub fn exactly_accepted_writes_are_commits()
    ensures { (lines : List Line) → HasAcceptedWritesAlone lines }
{}

/// Law: in a legal run of a script, of two lines of one session the one further down has at least the number of the one
/// further up.
pub fn numbers_of_a_session_never_fall()
    ensures { (lines : List Line) → IsScript lines → HasNumbersThatNeverFall lines }
{}

/// Law: in a legal run of a script the commits of a session stand in the order of its lines.
pub fn commits_of_a_session_keep_its_order()
    ensures { (lines : List Line) → IsScript lines → HasSessionsInOrder lines }
{}
