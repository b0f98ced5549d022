//! The store: the commits made so far, and the reply to each statement over the documents that they left.
//!
//! A reply at a number is what its text is told over the state after that many commits, however the store
//! keeps its documents. This crate knows nothing of scripts, sessions or devices. Read `specs/Replies.antt`
//! first: the reply to a text over a state, and the state after texts, are what the promise rests on.
#![tactic(auto)]

mod collections;
mod entry;
mod laws;
mod limits;
mod lines;
mod planned;
mod prepared;
mod prepared_sort;
mod preparing;
mod reading;
mod reply;
mod settings;
mod state_laws;
mod store;
mod table;

pub use entry::Entry;
pub use laws::{
    every_reply_is_lines, readings_agree_with_later_commits, what_is_not_accepted_changes_nothing,
};
pub use limits::Limits;
pub use prepared::Prepared;
pub use prepared_sort::PreparedSort;
pub use preparing::prepare;
pub use reading::Reading;
pub use reply::Reply;
pub use settings::Settings;
pub use state_laws::{loads_are_light, states_keep_the_rules};
pub use store::Core;
