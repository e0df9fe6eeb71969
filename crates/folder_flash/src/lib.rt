//! A flash in one file of a folder.
//!
//! [`FolderFlash`] stands on [`folder_disk::FolderDisk`], whose only file is that of the flash, so that what the disk
//! does for a write and a sync is done for a page.
#![tactic(auto)]

mod file;
mod flash;

pub use file::of_flash;
pub use flash::FolderFlash;
