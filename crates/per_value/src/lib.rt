//! Values of Rust types: how a type of the program becomes a typed value, and comes back.
//!
//! [`PerValue`] gives a type its value type, and each thing of the type its node. It is implemented for `bool`, the
//! eight integer types, `ValueText` (a text), `Bytes` (bytes) and `Vec<T>` (a list, so that a `Vec<u8>` is a list of
//! `u8`). [`Favourite`] is the example of a caller's own struct: a group of fields.
//!
//! The promise: `to_value` gives exactly the thing's node, or refuses it as too deep or too long exactly where it is;
//! `from_value` gives the thing back; a value that comes from `from_value` goes back to the same value. Lists, bytes
//! and texts are compared by their items.
#![tactic(auto)]

mod conversion;
mod favourite;
mod laws;
mod lists;
mod members;
mod round_trips;
mod scalars;
mod signed;
mod texts;
mod unsigned;

pub use conversion::PerValue;
pub use favourite::Favourite;
pub use laws::{favourites_have_trees, lists_have_trees, scalars_have_trees};
pub use members::{first_member, last_member};
pub use round_trips::{back_and_forth, there_and_back};
