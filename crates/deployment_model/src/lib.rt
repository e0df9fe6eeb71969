//! What an application is configured to have: its storages, and what each storage allows and starts with.
//!
//! A [`Deployment`] lists the storages of one version of an application, a [`StorageConfig`] the elements that are
//! configured in one of them, and an [`ElementConfig`] says of one element which type its value has, what it starts
//! with, and what an update does with it. Both lists ascend by name. The types are plain data with public fields;
//! `IsDeployment` and `IsStorage` of `specs/` say which data are deployments, and every call that takes one of these
//! types may ask for it.
//!
//! Elements and storages are looked up by name in a time that grows with the logarithm of their number, and without
//! memory.
#![tactic(auto)]

mod configs;
mod laws;
mod lookups;

pub use configs::{CollectionStrategy, Deployment, ElementConfig, ElementStrategy, StorageConfig};
pub use laws::{found_is_kept, names_are_apart};
