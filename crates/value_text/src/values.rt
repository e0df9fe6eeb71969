//! Values as texts, read.

ghost use Rattle.std.specs.Prelude.{◌≡◌, ◌≢◌, map, IfOk, IsErrOf};
ghost use Rattle.value_model.specs.Trees.{Tree};
ghost use Rattle.value_model.specs.Validity.{IsValue};
ghost use Rattle.value_model.specs.Views.{kind_of, tree_of};
ghost use Rattle.value_model.specs.Decoding.{Gives};
ghost use Rattle.value_text.specs.Texts.{value_text};
ghost use Rattle.value_text.specs.Limits.{kept};
ghost use Rattle.value_text.specs.Readers.{separated};
ghost use Rattle.value_text.specs.Parsing.{bool_at, value_content_at, scalar_tree_at, items_at, list_tree_at};
ghost use Rattle.value_text.specs.Parsing.{tree_here};
ghost use Rattle.value_text.specs.Parsing.{tree_at, tree_in, value_in};

use crate::numbers::{signed, unsigned};
use crate::readers::{after, punctuation};
use crate::strings::{bytes_at, text_at};
use crate::types::{scalar_at, type_at};
use std::alloc::Global;
use std::rc::Rc;
use value_model::{DecodeError, MAX_DEPTH, MAX_MEMBERS, Node, Value, ValueError, ValueType};

/// A truth value.
fn boolean(bytes: &[u8]) -> Result<(Node, &[u8]), DecodeError>
    ensures { Gives (λ x. (tree_of x.0, x.1.now)) result (bool_at bytes.now) }
{
    if let Some(rest) = after(b"true", bytes) {
        return Ok((Node::Bool(true), rest));
    }
    if let Some(rest) = after(b"false", bytes) {
        return Ok((Node::Bool(false), rest));
    }
    Err(DecodeError::NotAValue)
}

/// What follows the word of a scalar type and a colon.
#[tactic(auto, unfolding(crate::specs::Parsing::value_content_at))]
fn content<'a>(
    alloc: Global,
    value_type: &ValueType,
    bytes: &'a [u8],
) -> Result<(Node, &'a [u8]), DecodeError>
    ensures { Gives (λ x. (tree_of x.0, x.1.now)) result (value_content_at (kind_of value_type.now) bytes.now) }
{
    match value_type {
        ValueType::Bool => boolean(bytes),
        ValueType::U8 => {
            let (n, rest) = unsigned(u8::MAX as u64, bytes)?;
            Ok((Node::U8(n as u8), rest))
        }
        ValueType::U16 => {
            let (n, rest) = unsigned(u16::MAX as u64, bytes)?;
            Ok((Node::U16(n as u16), rest))
        }
        ValueType::U32 => {
            let (n, rest) = unsigned(u32::MAX as u64, bytes)?;
            Ok((Node::U32(n as u32), rest))
        }
        ValueType::U64 => {
            let (n, rest) = unsigned(u64::MAX, bytes)?;
            Ok((Node::U64(n), rest))
        }
        ValueType::I8 => {
            let (z, rest) = signed(i8::MAX as u64, bytes)?;
            Ok((Node::I8(z as i8), rest))
        }
        ValueType::I16 => {
            let (z, rest) = signed(i16::MAX as u64, bytes)?;
            Ok((Node::I16(z as i16), rest))
        }
        ValueType::I32 => {
            let (z, rest) = signed(i32::MAX as u64, bytes)?;
            Ok((Node::I32(z as i32), rest))
        }
        ValueType::I64 => {
            let (z, rest) = signed(i64::MAX as u64, bytes)?;
            Ok((Node::I64(z), rest))
        }
        ValueType::Text => {
            let (text, rest) = text_at(alloc, bytes)?;
            Ok((Node::Text(text), rest))
        }
        ValueType::Bytes => {
            let (found, rest) = bytes_at(alloc, bytes)?;
            Ok((Node::Bytes(found), rest))
        }
        ValueType::List(_) => Err(DecodeError::NotAValue),
        ValueType::Fields(_) => Err(DecodeError::NotAValue),
    }
}

/// A scalar: its type's word, a colon, and its content.
#[tactic(auto, unfolding(crate::specs::Parsing::scalar_tree_at))]
fn scalar_value(alloc: Global, bytes: &[u8]) -> Result<(Node, &[u8]), DecodeError>
    ensures { Gives (λ x. (tree_of x.0, x.1.now)) result (scalar_tree_at bytes.now) }
{
    let Some((value_type, rest)) = scalar_at(bytes) else {
        return Err(DecodeError::NotAValue);
    };
    let Some(rest) = after(b":", rest) else {
        return Err(DecodeError::NotAValue);
    };
    content(alloc, &value_type, rest)
}

/// Nodes with commas between them, up to the closing byte: one to `most`.
#[cycle(values)]
fn nodes(
    alloc: Global,
    depth: u32,
    close: u8,
    most: usize,
    bytes: &[u8],
) -> Result<(Vec<Node>, &[u8]), DecodeError>
    ensures { Gives (λ x. (map tree_of x.0.items, x.1.now)) result (separated (tree_at depth) close most bytes.now) }
{
    let mut nodes = Vec::new(alloc);
    let mut rest = bytes;
    for _ in 0..most {
        let (node, behind) = value_at(alloc, depth, rest)?;
        nodes.push(node)?;
        let (is_last, others) = punctuation(close, behind)?;
        if is_last {
            return Ok((nodes, others));
        }
        rest = others;
    }
    Err(DecodeError::NotAValue)
}

/// The items of a list, after its opening bracket.
#[cycle(values)]
#[tactic(auto, unfolding(crate::specs::Parsing::items_at))]
fn items(alloc: Global, depth: u32, bytes: &[u8]) -> Result<(Vec<Node>, &[u8]), DecodeError>
    ensures { Gives (λ x. (map tree_of x.0.items, x.1.now)) result (items_at (tree_at depth) bytes.now) }
{
    if let Some(rest) = after(b"]", bytes) {
        return Ok((Vec::new(alloc), rest));
    }
    nodes(alloc, depth, b']', bytes.len(), bytes)
}

/// A list, after `list<`.
#[cycle(values)]
#[tactic(auto, unfolding(crate::specs::Parsing::list_tree_at))]
fn list_value(alloc: Global, depth: u32, bytes: &[u8]) -> Result<(Node, &[u8]), DecodeError>
    ensures { Gives (λ x. (tree_of x.0, x.1.now)) result (list_tree_at depth (tree_at depth) bytes.now) }
{
    let (item_type, rest) = type_at(alloc, depth, bytes)?;
    let Some(rest) = after(b">[", rest) else {
        return Err(DecodeError::NotAValue);
    };
    let (items, rest) = items(alloc, depth, rest)?;
    Ok((Node::List(Rc::new(alloc, item_type)?, items), rest))
}

/// A node whose parts nest at most so deep.
#[cycle(values)]
#[tactic(auto, unfolding(crate::specs::Parsing::tree_here, crate::specs::Parsing::fields_tree_at))]
fn value_here(alloc: Global, depth: u32, bytes: &[u8]) -> Result<(Node, &[u8]), DecodeError>
    ensures { Gives (λ x. (tree_of x.0, x.1.now)) result (tree_here depth (tree_at depth) bytes.now) }
{
    if let Some(rest) = after(b"list<", bytes) {
        return list_value(alloc, depth, rest);
    }
    if let Some(rest) = after(b"{", bytes) {
        let (members, rest) = nodes(alloc, depth, b'}', MAX_MEMBERS, rest)?;
        return Ok((Node::Fields(members), rest));
    }
    scalar_value(alloc, bytes)
}

/// A node that nests at most so deep. Whether the items of its lists have the lists' item types is not asked.
#[cycle(values)]
fn value_at(alloc: Global, depth: u32, bytes: &[u8]) -> Result<(Node, &[u8]), DecodeError>
    ensures { Gives (λ x. (tree_of x.0, x.1.now)) result (tree_at depth bytes.now) }
{
    if depth == 0 {
        return Err(DecodeError::NotAValue);
    }
    value_here(alloc, depth - 1, bytes)
}

/// The node that the whole text spells.
#[tactic(auto, unfolding(crate::specs::Parsing::tree_in))]
fn node_in(alloc: Global, text: &[u8]) -> Result<Node, DecodeError>
    ensures { Gives (λ n. tree_of n) result (tree_in text.now) }
{
    let (node, rest) = value_at(alloc, MAX_DEPTH, text)?;
    if !rest.is_empty() {
        return Err(DecodeError::NotAValue);
    }
    Ok(node)
}

/// The value of the node, where it keeps the rules.
fn value_of(node: Node) -> Result<Value, DecodeError>
    ensures { Gives (λ v. v) result (kept (tree_of node)) }
{
    match Value::new(node) {
        Ok(value) => Ok(value),
        Err(ValueError::OutOfMemory) => Err(DecodeError::OutOfMemory),
        Err(_) => Err(DecodeError::NotAValue),
    }
}

#[tactic(auto, unfolding(crate::specs::Parsing::value_in))]
fn value_in(alloc: Global, text: &[u8]) -> Result<Value, DecodeError>
    ensures { Gives (λ v. v) result (value_in text.now) }
{
    let node = node_in(alloc, text)?;
    value_of(node)
}

/// The value whose text is `text`, from the first byte to the last.
///
/// # Errors
///
/// `NotAValue` exactly where the text is that of no value; `OutOfMemory`.
pub fn parse_value(alloc: Global, text: &[u8]) -> Result<Value, DecodeError>
    // the text is that of the value found, and a text that is refused is that of no value `t`
    ensures found { IfOk result (λ v. IsValue v × (text.now ≡ value_text v)) }
    ensures only { IsErrOf result DecodeError.NotAValue → (t : Tree) → IsValue t → text.now ≢ value_text t }

    // the text alone decides: which value it is, or that it is none, is what `value_in` gives for it
    ensures exact { Gives (λ v. v) result (value_in text.now) }
{
    value_in(alloc, text)
}
