//! Why a line was refused, in words: what its reply has no room for.
//!
//! A reply names the rule that a manifest breaks, or the types that differ, and no more. [`why_refused`] adds in which
//! storage and element a manifest breaks it, or where a line stops being one. [`why_not_updated`] and
//! [`why_not_restored`] add for which key or storage a manifest does not fit what is stored. [`why_no_line`] says why a
//! text is no line before it is handled, and [`why_no_call`] of the words of a call from a shell; [`why_no_dump`] adds
//! what is wrong with the value of a key in a dump. [`text_shown`] is as much of a word as a refusal shows.
#![tactic(auto)]

mod blame;
mod dumps;
mod initials;
mod json;
mod lines;
mod parts;
mod refusals;
mod rules;
mod words;

pub use dumps::why_no_dump;
pub use lines::{why_no_call, why_no_line};
pub use parts::{Trial, Unfit, unfit_update, why_not_restored, why_not_updated};
pub use refusals::why_refused;
pub use words::{dots_after, text_shown};
