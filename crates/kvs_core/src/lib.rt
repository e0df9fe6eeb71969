//! A session of a key-value storage, over maps alone.
//!
//! A [`KeySession`] holds what is on the disk and what the calls see, as two maps from names to keys. Reads see the
//! visible one, writes change it, and nothing here touches a disk: a sync takes the changes that make the one map into
//! the other ([`KeySession::changes`]), and marks what is visible as synchronised once they are written.
//!
//! Each call answers by the function of its name in `specs/Calls`, every refusal in its order with what it carries;
//! refused, or out of memory, it changes nothing. A key is *visible* where calls see it, *unreadable* where too few
//! copies agree on its bytes or these encode no value; its *salvage* is a value that is left. Reading and writing a key
//! take logarithmic time in the number of keys, at most 1,024, which never take more than the storage is allowed. A key
//! keeps its encoding alone, and is decoded at each reading; [`KeySession::get_any`] alone leaves a tree beside it.
//!
//! Words of the contracts: `calls` is `specs/Calls`; `refused` says that an error is the one that is due, or
//! `OutOfMemory`; `memory` when it can be that; `beside` that all but the visible keys stays; `unchanged` that an error
//! changes nothing. A *thing* is what a Rust type makes of a value: `T.kind` is the type of its values, `T.tree` the
//! value that a thing is.
#![tactic(auto)]

mod reading;
mod restoring;
mod session;
mod syncing;
mod typing;
mod writing;

pub use key_maps::{KEYS, KeyElement, KeyMaps, STORAGE_BYTES, StoredValue};
pub use session::KeySession;
