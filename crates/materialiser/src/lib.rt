//! Moves values to the homes of their attributes, one version at a time.
//!
//! Its promise: a step moves the version at the mark of the first dirty attribute, or takes the mark away exactly where no
//! version is left, and changes no document; settling leaves nothing dirty, by exactly as many moves as there were
//! versions left. It knows nothing of what decides where values belong. Read `specs/Dirty.antt` first, then
//! `specs/Steps.antt`.
#![tactic(auto)]

mod moved;
mod settling;
mod stepping;

pub use moved::Moved;
pub use settling::settle;
pub use stepping::{step, step_from};
