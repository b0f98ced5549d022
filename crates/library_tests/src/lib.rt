//! Tests of the libraries that programs and tables don't reach: the bytes of records, devices that fail,
//! documents and catalogs by their calls, the tokens of a text, the lines of a script.
//!
//! It promises nothing. Each library is proved in its own crate; its tests stand here, since a crate with tests is proved
//! once more for them, and this one has nothing else to prove.
#![tactic(auto)]

#[cfg(test)]
mod catalogs;
#[cfg(test)]
mod devices;
#[cfg(test)]
mod documents;
#[cfg(test)]
mod record_bytes;
#[cfg(test)]
mod scripts;
#[cfg(test)]
mod words;
