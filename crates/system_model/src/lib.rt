//! The files of one folder as the operating system has them.
//!
//! [`System`] has a call for each that a program makes of a folder: to list it, to open, make, read, write, sync and
//! close its files, and to sync the folder itself. Its clauses say what POSIX promises of them. What was written stays
//! with the system when a process ends, and is read by the next one. A power loss leaves anything where a file was
//! written since the last good sync that covered it. A sync that fails may leave as done what was never written, so
//! that no later sync covers it. The name of a file that was made is durable once the folder was synced. A place that
//! the device cannot read any more counts as zeros.
//!
//! A [`Failure`] says which call of the system failed, and why.
#![tactic(auto)]

mod failures;
mod reading;
mod system;

pub use failures::{Asked, Failure, Part};
pub use reading::Reading;
pub use system::System;
