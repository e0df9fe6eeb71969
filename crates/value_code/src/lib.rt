//! The encoding of typed values: the code of the type, and after it the payload.
//!
//! [`encode`] writes a value's one encoding. [`decode`] gives the value that the bytes encode, and `NotAValue` exactly
//! where there is none; [`encodes`] tells whether there is one. Reading a type stops at the greatest depth of a value,
//! and no room is made for a count before the items are there: bytes from outside cost neither more stack nor more
//! memory than a value may.
#![tactic(auto)]

mod codes;
mod decoding;
mod encoding;
mod fields;
mod laws;
mod payloads;
mod trees;
mod types;

pub use decoding::{decode, encodes};
pub use encoding::encode;
pub use laws::{decoded_is_exact, encoding_lengths, one_value, type_in_front};
