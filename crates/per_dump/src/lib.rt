//! Whole applications of a disk as dumps, and back.
//!
//! [`dump_application`] takes what an application has: the manifest of its active version, and of each storage the text
//! of its export. [`restore_application`] installs an application of a dump where nothing is installed, whole or not at
//! all, as [`per_backup::restore`] does. The text of a dump is [`dump_text`]'s.
//!
//! A dump has the active version alone: an update that is not finished is dumped as if it were.
//!
//! In the contracts `told` is that a disk's bytes are modelled, `quiet` that nothing is pending on it, and `time` that
//! its moments go on and no count falls.
#![tactic(auto)]

mod dumping;
mod restoring;

pub use dumping::{Dumped, dump_application};
pub use restoring::restore_application;
