//! What follows of the definitions of symbols, names, kinds, tuples, states, commits, readings, runs and ends: laws, and
//! no code.
//!
//! Its one promise is its laws. Most of them are false of some definition that says less, where no test and no worked
//! row would show the difference. It knows nothing of how anything is computed.
//! Read `specs/Runs.antt` first: it is about legal runs.
#![tactic(auto)]

mod commits;
mod ends;
mod kinds;
mod names;
mod runs;
mod states;
mod tuples;

pub use commits::{
    a_write_leaves_one_thing, readings_are_of_questions, readings_of_one_number_hold_one_thing,
    what_was_read_decides_what_is_told,
};
pub use ends::{
    a_broken_run_leaves_its_commits, a_broken_writing_leaves_a_front, a_done_run_leaves_one_thing,
    a_refusal_leaves_one_thing, an_unwritten_run_leaves_sink_and_store,
    the_input_alone_blames_no_device,
};
pub use kinds::{
    comparisons_are_of_one_kind, comparisons_of_other_kinds_are_unknown, each_symbol_has_a_mark,
    parts_are_of_the_wanted_kind, values_are_of_the_wanted_kind,
};
pub use names::one_of_several_tables_is_named;
pub use runs::{
    commits_of_a_session_keep_its_order, exactly_accepted_writes_are_commits,
    numbers_are_at_most_all_commits, numbers_of_a_session_never_fall,
};
pub use states::{
    documents_have_their_pairs, names_find_their_collections, pairs_are_told_apart,
    rows_are_numbered_on, rows_ascend, states_keep_their_limits, what_stands_is_a_document,
};
pub use tuples::tuples_go_on_in_order;
