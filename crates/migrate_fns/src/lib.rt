//! Stored converters: functions that make a value of one type of a value of another, for an update from an earlier
//! version.
//!
//! A [`Migration`] keeps a function beside its fact: it may be called on every value of the type `from`, and answers
//! only values of the type `to`, or `OutOfMemory`. Whoever makes one shows that fact, and nobody tests a type after a
//! conversion.
//!
//! [`Migrations`] is a list of them. A converter is for one element (a key), which it names, or names none and is for
//! every one. `find` gives the first from one type to another that is for an element. `find_chain` gives the shortest
//! list of 1 to 8 that lead from one type to another, one after the other, and of these the least by places (those of
//! its converters, counted from 0, compared one by one); none exactly where there is none. It first numbers the types
//! of the converters, each compared with those of its fingerprint (a number made of the type) alone, and then goes back
//! from the wanted type, level by level, over numbers alone. A level is the types from which equally many converters
//! lead there; it holds each type once, so hundreds of converters cost no exhaustive walk. A [`Chain`] is such a list,
//! and answers what its stored functions, one after the other, may answer.
//!
//! [`u8_to_u16`] and its like are functions to be stored: they keep the number, in twice the bytes.
#![tactic(auto)]

mod chains;
mod converters;
mod fingerprints;
mod migrations;
mod numbering;
mod search;

pub use chains::Chain;
pub use converters::{i8_to_i16, i16_to_i32, i32_to_i64, u8_to_u16, u16_to_u32, u32_to_u64};
pub use migrations::{Converter, Migration, Migrations};
pub use search::MAX_LINKS;
