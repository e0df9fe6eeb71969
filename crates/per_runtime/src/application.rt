//! One application in memory: its stage, its open storages, and each of its calls.
//!
//! A [`Running`] keeps the root of its application, an update in progress, and the storages that are open.
//! [`Running::call`] answers each of the fifty-one calls as its row says, every refusal in its order with what it
//! carries. Where the device fails in a call that names no storage, all sessions end, and the root is to be opened
//! again ([`Running::open_root`]).
//!
//! The promises: a stop at any moment leaves the application as before the call or as the call leads to, and no file of
//! another application changes; a refused call writes nothing, and a call that needs no device calls none.
//!
//! A *row* is the definition that says of a call what it answers and makes of the application, or why it is refused. By
//! `cause` and `passes` the count of faults rose where the device failed, and stayed where the call succeeded; `told`
//! is that the disk's bytes are modelled. The *world* of `run_model` has the moment and eight applications: of each
//! what the disk denotes, its stage, and the sessions of its open storages.

mod asking;
mod concluding;
mod installing;
mod laws;
mod running;
mod updating;

pub(crate) use laws::{running_is_application, running_stays};
pub(crate) use running::{Running, Stage};
