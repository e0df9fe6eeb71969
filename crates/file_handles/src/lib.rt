//! The working files of an open file storage, and the table of up to 64 handles on them.
//!
//! A [`FileTable`] holds the files as they are now, by name, and the open handles, by number. A new handle gets the
//! lowest free number from 1. Each call answers exactly by its definition: every refusal in its order with what it
//! carries, a busy file by the lowest conflicting handle, and a refused call changes nothing. A writer is
//! alone with its file; readers share one.
//!
//! The files are the table's own, apart from those on the disk: cutting a file does not allocate, and neither do the
//! other calls that only look, move or close. There are at most 1,024 files, and they never take more than the storage
//! is allowed. Where no handle is open, the files may lend their bytes to the changes that put them, in place of a
//! copy.
//!
//! Words of the contracts: a *session* is the files and the handles; `ok` says what a call answers, by the function of
//! its name in `specs`; `refused` that an error is the one that is due, or `OutOfMemory` where the call may run out of
//! memory; `memory` and `due` when it can be that; `storage` and `moment` what becomes of all else of the table; and
//! `unchanged` that an error changes nothing. A file is *unreadable* where too few copies agree on its bytes; its
//! *salvage* is the bytes that are left then. Its *info* says when it was made, last changed and last opened, and the
//! causes of its making and its last change. A moment (`now`) is in seconds.
#![tactic(auto)]

mod by_name;
mod changing;
mod contents;
mod handle;
mod handling;
mod laws;
mod lending;
mod map;
mod opening;
mod restoring;
mod storage;
mod table;

pub use handle::Handle;
pub use laws::whole_contents_are_given;
pub use storage::Storage;
pub use table::{FILES, FileTable, HANDLES, STORAGE_BYTES};
