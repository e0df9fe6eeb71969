//! What the contracts of a deployment exclude.
//!
//! A contract says what a call leaves. Here it is proved, for mistakes that are easily made, that their outcomes are
//! excluded by it ([`outcomes_are_refused`]). Each clause takes what the contract of a call says, in the words of that
//! contract, and an outcome that the mistake would leave, and derives a contradiction.
//!
//! A *row* (`deploy_rows`) makes of an application the next one, or says why a call is refused. A *bank* is one of the
//! two places for the storages of a version, and a *plan* what an update gives each storage of the next one.
#![tactic(auto)]

mod laws;

pub use laws::outcomes_are_refused;
