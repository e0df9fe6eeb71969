//! The files of one folder, as a system in memory has them.
//!
//! [`MemSystem`] meets the trait of a system. What was written stays when a process ends, and is read by the next one.
//! It fails a call, fails a sync or ends the process where it is asked to by a [`Trouble`]; it counts the calls; and
//! places of its files can become unreadable until they are written. [`MemSystem::power_loss`] gives what a power loss
//! leaves, at the end or after any of the calls that changed something, of each unsynced write all, a half or nothing.
#![tactic(auto)]

mod device;
mod files;
mod memory;
mod record;
mod trouble;
mod unreadable;

pub use memory::{MemFile, MemSystem};
pub use trouble::Trouble;
