//! Why the disk failed and why a line was refused, told where it is answered.
//!
//! [`Telling`] is the output of a run: before it takes a reply that says so, it says on standard error why. For that
//! [`NotedInput`] keeps what was read last ([`LastRead`]), in which the line that is answered is found. Where the line
//! alone does not show why an update was refused, parts of its manifest are tried on what the folder holds beside the
//! run, of which no file is changed. Both hand on what they are given, byte by byte.
#![tactic(auto)]

mod beside;
mod hearing;
mod telling;
mod trying;

pub use hearing::{LastRead, NotedInput};
pub use telling::{Marks, Telling};
pub use trying::Place;
