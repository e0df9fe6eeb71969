//! Dumps: whole applications as a text that a person can read, and back.
//!
//! [`write_dump`] spells applications as one JSON text: of each the manifest as it was handed in, of each storage of
//! keys its values by their texts, of each storage of files the contents in hexadecimal with their infos.
//! [`read_dump`] takes such a text apart, and says of any other why it is no dump.
//!
//! `dump_in` says which applications a text has. What is written has those that were given, every storage and every
//! element as it was, where they are in order; what is read are those that the text has, and a text that has none is
//! refused. So what was written is read back, unless memory runs out; and by [`manifests_are_in_order`] applications
//! with the storages of their manifests are in order. The text is kept in memory, with its parts as JSON values.
#![tactic(auto)]

mod dumps;
mod errors;
mod fields;
mod files;
mod keys;
mod laws;
mod reading;
mod writing;

pub use dumps::{AppNumber, DumpedApplication, DumpedStorage};
pub use errors::DumpError;
pub use laws::manifests_are_in_order;
pub use reading::read_dump;
pub use writing::write_dump;
