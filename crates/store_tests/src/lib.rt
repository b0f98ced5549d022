//! Tests of the store and of runs that no script reaches: the bytes of stored values, rows in columns,
//! a reading that is finished after a later commit, and how a run ends where a device fails or takes too little.
//!
//! It promises nothing; document_records, commit_core and sinew_app are proved in their own crates.
#![tactic(auto)]

#[cfg(test)]
mod columns;
#[cfg(test)]
mod ends;
#[cfg(test)]
mod readings;
#[cfg(test)]
mod stored_values;
