// Laws of the definitions, for the crates above.
ghost use Rattle.std.specs.Prelude.{◌≡◌, ◌≤◌, ◌++◌, ℕ, List, false, length, take};
ghost use Rattle.exec_finish.specs.Lines.{IsLines};
ghost use Rattle.commit_core.specs.Agreement.{Agrees, ReadingOf};
ghost use Rattle.commit_core.specs.Replies.{next_state, told_of, state_after};
ghost use Rattle.commit_core.specs.State.{State};

use doc_flatten::document_arrays_are_one_line;
use exec_finish::answers_are_lines;
use sql_eval::meanings_are_on_one_line;

/// Law: every reply over the state after any commits is whole lines, none of which begins with a mark.
pub fn every_reply_is_lines()
    ensures law { (text : List ℕ) (texts : List (List ℕ)) → IsLines (told_of text (state_after texts)).body }
{
    document_arrays_are_one_line();
    meanings_are_on_one_line();
    answers_are_lines();
}

/// Law: a text that is told anything but that it is an accepted write leaves the state as it is.
pub fn what_is_not_accepted_changes_nothing()
    ensures { (text : List ℕ) (state : State) → (told_of text state).accepted ≡ false → next_state state text ≡ state }
{}

/// Law: a reading that agrees with commits agrees with all commits of which the first, as many as its number, are the
/// same; so it does with any later ones.
pub fn readings_agree_with_later_commits()
    ensures fronts { (reading : ReadingOf) (texts others : List (List ℕ)) → Agrees reading texts → reading.at ≤ length others → take reading.at others ≡ take reading.at texts → Agrees reading others }
    ensures later { (reading : ReadingOf) (texts later : List (List ℕ)) → Agrees reading texts → Agrees reading (texts ++ later) }
{}
