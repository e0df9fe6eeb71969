//! What the contracts of storages exclude.
//!
//! A contract says what a call leaves. Here it is proved, for mistakes that are easily made, that their outcomes are
//! excluded by it: for a storage of elements ([`outcomes_are_refused`]), and for files that are open
//! ([`sessions_are_refused`]). Each clause takes what the contract of a call says, in the words of that contract,
//! and an outcome that the mistake would leave, and derives a contradiction.
#![tactic(auto)]

mod laws;

pub use laws::{outcomes_are_refused, sessions_are_refused};
