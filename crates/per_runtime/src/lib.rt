//! The runtime of eight applications: what is kept of them in memory, its start, and each command.
//!
//! [`start`] opens the eight roots. [`Runtime::step`] answers one event: the moment is set, or a call goes to its
//! application. Where the device failed the runtime is in doubt until the disk is synchronised again: the next call
//! that needs the device begins with that sync. A root that a failure left half written is opened again before the next
//! call of its application.
//!
//! Every command is a step of the world of `run_model`, which has the moment, eight applications, each as the disk
//! denotes it and memory keeps it, and a doubt. A stop at any moment leaves each application between two worlds that
//! follow each other. Running out of memory ends the run; nothing else does.
//!
//! A *doubt* is what a failed command leaves: how much of it was done is not known until a sync. In the contracts
//! `told` is that the disk's bytes are modelled, and `time` that its moments go on and no count falls.
#![tactic(auto)]

mod application;
mod calls;
mod local_call;
mod replying;
mod runtime;
mod sorting;
mod starting;
mod storages;

pub use runtime::Runtime;
pub use starting::start;
