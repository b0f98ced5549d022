//! The record in which a row version keeps its values: a list of numbered fields as bytes.
//!
//! Each list of fields has one spelling, and each spelling one list: that is the promise of this crate. A record is
//! read in place. It knows nothing of what a number names or what a value's bytes mean.
//! Read `specs/Spelling.antt` first.
#![tactic(auto)]

mod building;
mod checking;
mod editing;
mod field_bytes;
mod fields;
mod finding;
mod laws;
mod limits;
mod numbers;
mod parts;
mod putting;
mod reading;
mod removing;
mod steps;
mod taking;
mod walking;
mod walks;
mod word;

pub use building::build;
pub use checking::check;
pub use field_bytes::FieldBytes;
pub use fields::Field;
pub use laws::{
    a_list_has_one_spelling, a_spelling_has_its_fields_in_place, a_spelling_has_one_list,
    parts_of_one_more,
};
pub use parts::build_from_parts;
pub use putting::put;
pub use reading::{count, field, find, find_near};
pub use removing::remove;
pub use steps::Steps;
pub use taking::take;
pub use walking::Walk;
pub use walks::walk;
