//! The versions of the rows of a collection, and which of them a row shows after any number of commits.
//!
//! A version is seen from the commit at which it begins up to the one at which it ends. This crate knows nothing of
//! what a version holds. Contracts see the list of the versions in the order in which they were written, and the
//! horizon, up to which old versions may have been emptied.
//! Read `specs/History.antt` first, then `specs/Order.antt`, `specs/Shows.antt` and `specs/Changes.antt`.
#![tactic(auto)]

mod append_fault;
mod change;
mod changing;
mod ends;
mod lasts;
mod laws;
mod marks;
mod stored;
mod touch;
mod touching;
mod version;
mod version_id;
mod version_list;
mod versions;
mod walking;

pub use append_fault::AppendFault;
pub use change::Change;
pub use laws::{
    appends_show, empties_show, endings_show, latest_show, latest_stays, roll_backs_show,
};
pub use version::Version;
pub use version_id::VersionId;
pub use versions::{MOST_VERSIONS, Versions};
