//! From a name to the path that leads to its values now.
//!
//! Its promise: the path is the one that the catalog's rules call lawful for the name and the kind that is wanted, as its
//! attributes stand at the call. A path is made anew for each batch that is read, and never kept while homes may change.
//! It knows nothing of where values stand, and takes no memory. Read `specs/Paths.antt` of attr_catalog first.
#![tactic(auto)]

mod rewriting;

pub use rewriting::path;
