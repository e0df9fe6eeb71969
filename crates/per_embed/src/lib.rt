//! A storage of keys on a disk of its own: for a program that embeds one.
//!
//! [`KeyStorage`] owns a disk and the storage that is open on it. [`KeyStorage::open`] formats a disk that never was,
//! installs a manifest where nothing is installed, and opens one storage by its name; [`installed`] is its first half.
//! Then [`KeyStorage::get`] and [`KeyStorage::set`] read and write what the calls see, and [`KeyStorage::sync`] makes
//! it durable. [`open_folder`] gives a folder as a disk.
//!
//! The promises are those of the calls below, and no caller has anything to show: what is got is what was set; a sync
//! that answers Ok has made what the calls see the content of the storage; a stop at any moment leaves each value as
//! before or as after. A call that is refused has changed nothing. Once a call of the disk failed the storage is
//! closed, and each call answers `PhysicalStorageFailure`, until the storage is opened again.
//!
//! What the calls *see* is what was set and removed since the last sync, over what is synchronised: a key is *visible*
//! where they see it, and *pending* is what they see and is not synchronised. `told` is that the disk's bytes are
//! modelled.
//!
//! Limits: application 0 of the disk, one storage at a time, and the limits of `kvs_store` and `deploy`.
#![tactic(auto)]

mod folders;
mod installing;
mod opening;
mod reading;
mod storages;
mod syncing;
mod writing;

pub use folders::{open_folder, seconds};
pub use installing::installed;
pub use storages::KeyStorage;
