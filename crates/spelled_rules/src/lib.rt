//! What the rules need of a statement holds of each statement that a text spells.
//!
//! Its one promise is the law that joins the grammar to the rules of names, kinds and widths. It knows nothing of what a
//! statement means, and has no code.
//! Read `specs/Written.antt` of type_rules first, then `specs/Statement.antt` of sql_grammar.
#![tactic(auto)]

mod written_laws;

pub use written_laws::what_is_spelled_is_written;
