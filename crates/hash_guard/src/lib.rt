//! A text under its hash, by which a reader distinguishes a whole text from a torn or damaged one.
//!
//! A sealed text is 32 bytes of SHA-256 of all that follows, a generation of at least 1 in 8 bytes, the
//! body's length in 4 bytes, and the body of at most [`MAX_BODY`] bytes. Numbers are little-endian.
//! It is at the start of a slot, a file that has one text at a time; what follows it there does not matter.
//! The generation is the number of the text's version.
//!
//! [`verify`] answers a generation and a body exactly where a slot's start is a sealed text, and what
//! [`seal`] writes verifies as what was sealed. Both hash in place, without a copy of the body, and
//! only `seal` allocates.
//!
//! The hash guards against damage, not against malice: it is no signature, and whoever can write a
//! slot can seal a text.
#![tactic(auto)]

mod hashing;
mod layout;
mod sealing;
mod verifying;

pub use hashing::hash;
pub use layout::{BLANK, HEADER, MAX_BODY};
pub use sealing::{seal, seal_into};
pub use verifying::{Sealed, verify};
