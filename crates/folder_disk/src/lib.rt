//! A disk over the files of one folder.
//!
//! [`FolderDisk::open`] makes the files of a system a disk, each file of the disk the file of its number, and syncs
//! what any process wrote there. A file of which much waits for a sync is synced with the write that made it so much,
//! while its bytes are at hand. Where a sync of a file fails, what it may have dropped is written again; where that
//! cannot be done, every later call of the disk fails.
#![tactic(auto)]

mod at_once;
mod calls;
mod disk;
mod folder;
mod held;
mod notes;
mod opened;
mod range;
mod reading;
mod syncing;
mod writing;

pub use disk::{FolderDisk, FolderRefused};
