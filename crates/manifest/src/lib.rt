//! The manifest: a JSON text that says which storages an application is to have.
//!
//! [`read_manifest`] gives the deployment that a text says, or the first of the twenty-four rules that it violates.
//! The rules are in `specs/Rules` in their order, each a test of the value as `serde_json` reads it, and each has a
//! function of its own here: of the whole in `whole_rules`, of the storages in `storage_rules`, of the elements in
//! `element_rules`. A rule is looked at only where those before it are kept, over all storages at once.
//!
//! What is read has the defaults of what was left out, both lists in the order of the names, and the initial contents
//! as bytes; it obeys the rules of deployments. Reading takes a time that is linear in the text but for the order of
//! the names.
#![tactic(auto)]

mod building;
mod element_rules;
mod errors;
mod initials;
mod laws;
mod names;
mod parts;
mod reading;
mod storage_rules;
mod values;
mod whole_rules;
mod words;

pub use errors::ManifestError;
pub use laws::said_is_kept;
pub use reading::read_manifest;
