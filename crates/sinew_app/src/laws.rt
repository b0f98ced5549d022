// Laws of the definitions, for the crates above.
ghost use Rattle.std.specs.Prelude.{List};
ghost use Rattle.script_reader.specs.Script.{IsScript};
ghost use Rattle.script_reader.specs.declared.line.Line.{Line};
ghost use Rattle.sinew_app.specs.Laws.{HasOneSerialRun, HasSerialRun, IsShownByPrinting};

use commit_core::every_reply_is_lines;
use script_reader::{lines_are_told_apart, numbers_are_small};

/// Law: every script has a serial run.
pub fn a_script_has_a_serial_run()
    ensures { (lines : List Line) → IsScript lines → HasSerialRun lines }
{}

/// Law: it has no other one.
pub fn a_script_has_one_serial_run()
    ensures { (lines : List Line) → HasOneSerialRun lines }
{}

/// Law: what is printed of a script and a legal run shows the run.
pub fn what_is_printed_shows_the_run()
    ensures { (lines : List Line) → IsScript lines → IsShownByPrinting lines }
{
    lines_are_told_apart();
    numbers_are_small();
    every_reply_is_lines();
}
