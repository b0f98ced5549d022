//! A lock whose value keeps a history, and is handed from caller to caller in the order of tickets.
//!
//! Each caller has a pass, which knows what it has seen of the history and which entries are its own. The value that a
//! turn gives has a history that fits the pass. This crate knows nothing of what the entries are.
//! Read `specs/Pass.antt` first, then `specs/Rule.antt`.
#![tactic(auto)]

mod held;
mod historied;
mod in_turn;
mod lock;
mod pass;
mod plays;
mod stage;
mod start;
mod steps;
mod turn;
mod view;

pub use historied::Historied;
pub use lock::Lock;
pub use pass::Pass;
pub use turn::Turn;
