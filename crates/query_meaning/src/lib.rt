//! What a question over one table means over documents, and the answer of a plan of it over rows.
//!
//! Its promise is a call, which answers what a plan means over rows, and two laws: over the rows that are read of
//! documents that is what the question means over those documents, and each expression of a plan can be computed there.
//! It knows nothing of texts and stores. Read `specs/Question.antt` first, then `specs/Plans.antt`.
#![tactic(auto)]

mod answering;
mod plan_laws;

pub use answering::{answer, most_needed};
pub use plan_laws::{plans_can_be_run, plans_keep_meaning, plans_read_what_is_asked};
