//! Typed values, whole: types, values, their encodings and their texts.
//!
//! A [`Value`] is a tree of truth values, integers, texts, bytes, lists and groups of fields. Every value has one
//! encoding ([`encode`], [`decode`]) and one text ([`print_value`], [`parse_value`]), and every type one text
//! ([`print_type`], [`parse_type`]). Reading is exact on every input: the value that the bytes or the text denote,
//! or `NotAValue` where there is none. Its type is read off either.
//!
//! A value's type nests at most [`MAX_DEPTH`] deep, its groups have 1 to [`MAX_MEMBERS`] members, and its encoding has
//! at most [`MAX_LENGTH`] bytes. Three crates below do the work: `value_model`, `value_code` and `value_text`.
#![tactic(auto)]

pub use value_code::{
    decode, decoded_is_exact, encode, encodes, encoding_lengths, one_value, type_in_front,
};
pub use value_model::{
    DecodeError, MAX_DEPTH, MAX_LENGTH, MAX_MEMBERS, Node, Value, ValueError, ValueType,
};
pub use value_text::{
    parse_type, parse_value, print_type, print_value, read_type_is_exact, read_value_is_exact,
    type_is_in_its_text, value_is_in_its_text, value_text_is_one_line,
};
