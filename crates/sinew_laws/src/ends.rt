// Laws of how a run ends.
ghost use Rattle.sinew_laws.specs.Ends.{BlamesNoDevice, LeavesAFront, LeavesItsCommits, LeavesOneEnd, LeavesOneRefusal, LeavesSinkAndStore};

use sinew_app::a_script_has_one_serial_run;

/// Law: two runs from one source to one sink that are done leave the source the same, with the same texts of commits, where
/// it tells its bytes; and the sink the same, where this tells its bytes too.
pub fn a_done_run_leaves_one_thing()
    ensures { LeavesOneEnd }
{
    a_script_has_one_serial_run();
}

/// Law: two runs from one source to one sink that are refused leave the source the same, with the same commits, where it
/// tells its bytes; and the sink the same, where this tells its bytes too.
pub fn a_refusal_leaves_one_thing()
    ensures { LeavesOneRefusal }
{}

/// Law: a run whose writing broke off leaves the source as one from the same source that is done or refused, with the same
/// texts of commits, where the source tells its bytes; and what the sink took is a front of what it takes there, and not
/// all of that, where the sink tells its bytes too.
pub fn a_broken_writing_leaves_a_front()
    ensures { LeavesAFront }
{
    a_script_has_one_serial_run();
}

/// Law: wherever the writing breaks off from one source to one sink, the same is read and the store has the same texts
/// of commits, where the source tells its bytes.
pub fn a_broken_run_leaves_its_commits()
    ensures { LeavesItsCommits }
{
    a_script_has_one_serial_run();
}

/// Law: where nothing was written the sink is as it was, and the store has no commit.
pub fn an_unwritten_run_leaves_sink_and_store()
    ensures { LeavesSinkAndStore }
{}

/// Law: a status that the input alone decides is not Read, Write or Words, and one that is decided both for a script and
/// for other bytes is Memory.
pub fn the_input_alone_blames_no_device()
    ensures { BlamesNoDevice }
{}
