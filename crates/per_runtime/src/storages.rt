//! The open storages of one application, and every call that names one: opened, read and changed in memory, made
//! durable, closed, recovered and reset.
//!
//! [`OpenSlots`] has room for sixteen storages, each in the slot of its number in the active version.
//! [`OpenSlots::call`] answers a call that names a storage as its row says, every refusal in its order with what it
//! carries. A stop at any moment leaves the application as it was, or as the call leads to, and no file of another
//! application changes. Where the device failed the storage that the call names is closed, and all else stays in use.
//!
//! An application is *at rest* where its root is open and no update is in progress. A *row* is the definition that says
//! of a call what it answers and makes of the application, or why it is refused. By `cause` and `passes` the count of
//! faults rose where the device failed, and stayed where the call succeeded; `told` is that the disk is modelled.

mod calling;
mod closing;
mod finding;
mod laws;
mod local;
mod opening;
mod rebuilding;
mod slots;
mod syncing;

pub(crate) use slots::OpenSlots;
