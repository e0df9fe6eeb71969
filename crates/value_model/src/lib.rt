//! Typed values: the types that a value may have, the tree that it holds, and the value itself.
//!
//! A [`ValueType`] and a [`Node`] are plain data. Contracts see a type as its kind and a node as its tree, without
//! pointers and capacities; `specs/` says what a tree's type, depth and encoding are, and which trees are values.
//!
//! A [`Value`] is a node that keeps four rules: every list item has the list's item type, every group of fields has 1
//! to 32 members, its type nests at most 8 deep, and its encoding has at most 65,536 bytes. Contracts see a value as
//! its tree.
#![tactic(auto)]

mod errors;
mod limits;
mod nodes;
mod sizes;
mod types;
mod typing;
mod values;

pub use errors::{DecodeError, ValueError};
pub use limits::{MAX_DEPTH, MAX_LENGTH, MAX_MEMBERS};
pub use nodes::Node;
pub use types::ValueType;
pub use values::Value;
