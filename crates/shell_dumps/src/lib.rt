//! Whole applications as a text, from a shell: `per dump --dir DIR`, and back: `per restore --dir DIR`.
//!
//! [`dump_or_restore`] does what the words ask for over the folder, or a flash in it, that is its [`Place`]. What it
//! writes and says goes to the standard streams, whose bytes no clause can name: the lines are tested, and what a dump
//! has and a restore makes are contracts of [`per_dump`].
#![tactic(auto)]

mod dumps;
mod fitting;
mod measuring;

pub use dumps::{Place, dump_or_restore};
