//! An open file storage: its files, by name and through handles, over their copies on a disk.
//!
//! [`open_files`] opens a storage at what its copies hold, and reports what was lacking. A [`Files`] then holds two
//! maps from names to files: the synchronised one, which is on the disk, and the working one, which the calls see and
//! change. [`Files::sync_to_file`] and [`Files::close_storage`] make the working files durable, all at once, and write
//! only what differs. A [`Scoped`] is a handle that is closed when it is dropped.
//!
//! Each call answers exactly by its definition: every refusal in its order with what it carries, and a refused call
//! changes nothing; neither does `OutOfMemory`. At every moment of a call, and after damage, a storage that opens
//! stands as before or after it, with every content that enough copies are left of. The working files are the table's
//! own, apart from those in the storage, so the calls that only cut, look, move or close do not allocate.
//!
//! Words of the contracts: a *session* is the working files and the handles on them; what a call answers is the
//! function of its name in `file_handles/specs`, of the storage's configuration, the session and the arguments, and it
//! gives the next session. `refused` says that an error is the one that is due, or `OutOfMemory` where the call may run
//! out of memory; `memory` and `due` say when it can be that; `beside` that all else of the open storage stays. A
//! *shape* is a storage as it is configured, its *place* the files of its copies, a *text* an index as copies hold it.
//! A file is *unreadable* where too few copies agree on its bytes; its *salvage* is the bytes that are left then, and
//! its *info* when it was made, last changed and last opened, and the causes of its making and its last change.
//! `told` says that the bytes of a disk of this type are modelled. A disk is *quiet* where nothing is pending, a place
//! *clean* where nothing on it contradicts anything.
//!
//! Of a disk at a moment (a `Medium`), the `image` is what reads give, `written` counts the bytes that were written,
//! and `faults` the calls that failed; that count *rose* also where it stands at its greatest. The *view* of a
//! storage is what its copies denote: its generation, its elements as entries, and which copies lack something. The
//! *generation* is a number that rises with each commit. The index lists the elements: in format 2 with the generation
//! of the last change of each, in format 1 without.
#![tactic(auto)]

mod by_name;
mod changing;
mod differences;
mod files;
mod handling;
mod opening;
mod opening_files;
mod scoped;
mod syncing;
mod whole;

pub use files::Files;
pub use opening::{OpenedFiles, open_files};
pub use scoped::Scoped;
pub use syncing::{Closed, FilesOutcome};
