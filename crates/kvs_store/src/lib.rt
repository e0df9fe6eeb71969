//! A key-value storage on its disk.
//!
//! [`open_kvs`] opens the storage and reads all of its keys into memory, each judged: bytes that encode no value are
//! unreadable. A [`Kvs`] then holds what is synchronised and what the calls see. Every call but
//! [`Kvs::sync_to_storage`] works on what the calls see alone and touches no disk; a sync writes exactly the keys
//! that differ, all at once.
//!
//! The promises: an opening shows just what the storage denotes, and reports just what was lacking or unreadable
//! before it. A sync that answers Ok has made what the calls see the storage's content, and one that hands the storage
//! back has done nothing. A stop at any moment leaves the storage as before or as after, and no file outside its
//! place changes.
//!
//! Words of the contracts: a key is *visible* where the calls see it, with what is pending, and *unreadable* where too
//! few copies agree on its bytes or these encode no value; its *salvage* is the bytes that are left where too few
//! agree, if they encode a value. A *shape* is a storage as it is configured, its *place* the files of its copies, a
//! *text* an index as copies hold it. `told` says that the bytes of a disk of this type are modelled. A disk is *quiet*
//! where nothing is pending, a place *clean* where nothing on it contradicts anything. What a call on keys answers is
//! the function of its name in `kvs_core/specs/Calls`, of the configuration, the visible keys and the arguments;
//! `refused` says that an error is the one that is due, or `OutOfMemory`, `memory` when it can be that, and `beside`
//! that all but the visible keys stays. A *thing* is what a Rust type makes of a value: `T.kind` is the type of its
//! values, `T.tree` the value that a thing is.
//!
//! Of a disk at a moment (a `Medium`), the `image` is what reads give, `written` counts the bytes that were written,
//! and `faults` the calls that failed; that count *rose* also where it stands at its greatest. The *view* of a
//! storage is what its copies denote: its generation, its elements as entries, and which copies lack something. The
//! *generation* is a number that rises with each commit. The index lists the elements: in format 2 with the generation
//! of the last change of each, in format 1 without.
//!
//! Limits: those of the layers below, 1,024 keys and 4,194,304 bytes; a storage is used with the disk of its opening,
//! by one caller at a time. Dropping a [`Kvs`] drops its pending changes.
#![tactic(auto)]

mod judging;
mod opening;
mod reading;
mod storages;
mod syncing;
mod writing;

pub use element_state::{Shape, StoreError};
pub use opening::{OpenedKvs, open_kvs};
pub use storages::Kvs;
pub use syncing::SyncFault;
