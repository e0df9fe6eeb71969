//! Room on raw flash comes back that no application needs any more.
//!
//! An application has a root, of which there are three copies and a text *stands* that two hold, and two *banks*: the
//! files of the storages of one version each, 512 numbers a bank. Eight applications can be on a disk.
//!
//! A flash keeps the newest record of each page of each file, whoever needs it. What is given up by a wipe (which
//! removes an application), by a finish (which ends an update and drops the version before it) or by a version that is
//! made again is named by no root, but stays there. [`reclaim`] reads the eight roots and takes from the flash the
//! files of every bank in which no version is. It changes nothing else: at each moment every application stands as it
//! stood, and the flash can be opened.
//!
//! Each application has two *banks* of files, for the storages of two versions. The text of a root that *stands* is the
//! one on which enough of its copies agree.
//!
//! It is called between two runs, since no root names the version that an update in progress makes. What is in no bank
//! is kept, and so is all that an application has while a copy of its root lacks the text that stands or holds another:
//! a repair may need it. Each call reads every page four times.
#![tactic(auto)]

mod naming;
mod reclaiming;

pub use reclaiming::{Reclaimed, reclaim};
