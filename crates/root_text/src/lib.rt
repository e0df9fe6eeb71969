//! The text of a root: what is installed of an application.
//!
//! A root says that nothing is installed, or the active version and its bank, one of two places for the storages of a
//! version, and the previous version, if any, in the other bank. A version is its manifest's text. [`read_root`] takes
//! exactly the texts of roots apart; [`write_absent`] and [`write_installed`] give each root's one text ([`one_root`]).
#![tactic(auto)]

mod errors;
mod laws;
mod reading;
mod versions;
mod writing;

pub use errors::RootError;
pub use laws::one_root;
pub use reading::read_root;
pub use versions::{RootSays, VersionText};
pub use writing::{write_absent, write_installed};
