//! Types as texts.

ghost use Rattle.std.specs.Prelude.{◌≡◌, ◌≢◌, map, IfOk, IsErrOf};
ghost use Rattle.value_model.specs.Kinds.{Kind};
ghost use Rattle.value_model.specs.Views.{kind_of};
ghost use Rattle.value_model.specs.Decoding.{Gives};
ghost use Rattle.value_text.specs.Readers.{Finds, separated};
ghost use Rattle.value_text.specs.Parsing.{scalar_at, kind_here, kind_at, list_kind_at, fields_kind_at, kind_in};
ghost use Rattle.value_text.specs.Texts.{type_text};
ghost use Rattle.value_text.specs.Types.{IsType};

use crate::readers::{after, punctuation};
use std::alloc::Global;
use std::rc::Rc;
use value_model::{DecodeError, MAX_DEPTH, MAX_MEMBERS, ValueType};

/// The scalar type whose word stands at the start, and what follows it.
#[tactic(auto, unfolding(crate::specs::Parsing::scalar_at))]
pub(crate) fn scalar_at(bytes: &[u8]) -> Option<(ValueType, &[u8])>
    ensures { Finds (λ x. (kind_of x.0, x.1.now)) result (scalar_at bytes.now) }
{
    if let Some(rest) = after(b"bool", bytes) {
        return Some((ValueType::Bool, rest));
    }
    if let Some(rest) = after(b"u8", bytes) {
        return Some((ValueType::U8, rest));
    }
    if let Some(rest) = after(b"u16", bytes) {
        return Some((ValueType::U16, rest));
    }
    if let Some(rest) = after(b"u32", bytes) {
        return Some((ValueType::U32, rest));
    }
    if let Some(rest) = after(b"u64", bytes) {
        return Some((ValueType::U64, rest));
    }
    if let Some(rest) = after(b"i8", bytes) {
        return Some((ValueType::I8, rest));
    }
    if let Some(rest) = after(b"i16", bytes) {
        return Some((ValueType::I16, rest));
    }
    if let Some(rest) = after(b"i32", bytes) {
        return Some((ValueType::I32, rest));
    }
    if let Some(rest) = after(b"i64", bytes) {
        return Some((ValueType::I64, rest));
    }
    if let Some(rest) = after(b"text", bytes) {
        return Some((ValueType::Text, rest));
    }
    let rest = after(b"bytes", bytes)?;
    Some((ValueType::Bytes, rest))
}

/// The type of a list, whose item type follows `list<`.
#[cycle(types)]
#[tactic(auto, unfolding(crate::specs::Parsing::list_kind_at))]
fn list_type(alloc: Global, depth: u32, bytes: &[u8]) -> Result<(ValueType, &[u8]), DecodeError>
    ensures { Gives (λ x. (kind_of x.0, x.1.now)) result (list_kind_at (kind_at depth) bytes.now) }
{
    let (item, rest) = type_at(alloc, depth, bytes)?;
    let rest = after(b">", rest).ok_or(DecodeError::NotAValue)?;
    Ok((ValueType::List(Rc::new(alloc, item)?), rest))
}

/// The members of a group, after its opening brace, up to the closing one.
#[cycle(types)]
fn members(alloc: Global, depth: u32, bytes: &[u8]) -> Result<(Vec<ValueType>, &[u8]), DecodeError>
    ensures { Gives (λ x. (map kind_of x.0.items, x.1.now)) result (separated (kind_at depth) 125 32 bytes.now) }
{
    let mut members = Vec::new(alloc);
    let mut rest = bytes;
    for _ in 0..MAX_MEMBERS {
        let (member, behind) = type_at(alloc, depth, rest)?;
        members.push(member)?;
        let (is_last, others) = punctuation(b'}', behind)?;
        if is_last {
            return Ok((members, others));
        }
        rest = others;
    }
    Err(DecodeError::NotAValue)
}

/// A type whose parts nest at most so deep.
#[cycle(types)]
#[tactic(auto, unfolding(crate::specs::Parsing::kind_here, crate::specs::Parsing::fields_kind_at))]
fn type_here(alloc: Global, depth: u32, bytes: &[u8]) -> Result<(ValueType, &[u8]), DecodeError>
    ensures { Gives (λ x. (kind_of x.0, x.1.now)) result (kind_here (kind_at depth) bytes.now) }
{
    if let Some(rest) = after(b"list<", bytes) {
        return list_type(alloc, depth, rest);
    }
    if let Some(rest) = after(b"{", bytes) {
        let (members, rest) = members(alloc, depth, rest)?;
        return Ok((ValueType::Fields(members), rest));
    }
    let (scalar, rest) = scalar_at(bytes).ok_or(DecodeError::NotAValue)?;
    Ok((scalar, rest))
}

/// A type that nests at most so deep.
#[cycle(types)]
pub(crate) fn type_at(
    alloc: Global,
    depth: u32,
    bytes: &[u8],
) -> Result<(ValueType, &[u8]), DecodeError>
    ensures { Gives (λ x. (kind_of x.0, x.1.now)) result (kind_at depth bytes.now) }
{
    if depth == 0 {
        return Err(DecodeError::NotAValue);
    }
    type_here(alloc, depth - 1, bytes)
}

/// The type that the whole text spells.
#[tactic(auto, unfolding(crate::specs::Parsing::kind_in))]
fn type_in(alloc: Global, text: &[u8]) -> Result<ValueType, DecodeError>
    ensures { Gives (λ t. kind_of t) result (kind_in text.now) }
{
    let (value_type, rest) = type_at(alloc, MAX_DEPTH, text)?;
    if !rest.is_empty() {
        return Err(DecodeError::NotAValue);
    }
    Ok(value_type)
}

/// Parses the whole text as a type.
///
/// # Errors
///
/// `NotAValue` exactly where the text is not that of a type of depth at most 8; `OutOfMemory`.
pub fn parse_type(alloc: Global, text: &[u8]) -> Result<ValueType, DecodeError>
    // the text is that of the type found, and a text that is refused is that of no type `k`
    ensures found { IfOk result (λ t. IsType (kind_of t) × (text.now ≡ type_text (kind_of t))) }
    ensures only { IsErrOf result DecodeError.NotAValue → (k : Kind) → IsType k → text.now ≢ type_text k }

    // the text alone decides: which type it is, or that it is none, is what `kind_in` gives for it
    ensures exact { Gives (λ t. kind_of t) result (kind_in text.now) }
{
    type_in(alloc, text)
}
