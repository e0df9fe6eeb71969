//! Reading the payloads of nodes.

ghost use Rattle.std.specs.Prelude.{◌≡◌};
ghost use Rattle.value_code.specs.Reading.{tree_at, trees_at, trees_by};
ghost use Rattle.value_model.specs.Kinds.{one, two, four, eight, bool_kind, bytes_kind, signed_kind, text_kind};
ghost use Rattle.value_model.specs.Kinds.{unsigned_kind};
ghost use Rattle.value_model.specs.Views.{kind_of, kinds_view, tree_of, trees_view};
ghost use Rattle.value_model.specs.Decoding.{Gives};

use crate::fields::{byte_at, counted_at, text_of, u8_at, u16_at, u32_at, u64_at};
use per_base::{Bytes, ValueText};
use std::alloc::Global;
use value_model::{DecodeError, Node, ValueType};

/// The node of this type at the start of the bytes, and the bytes after it. It recurses as deep as the type nests.
#[cycle(node_at)]
pub(crate) fn node_at<'a>(
    alloc: Global,
    value_type: &ValueType,
    bytes: &'a [u8],
) -> Result<(Node, &'a [u8]), DecodeError>
    ensures { Gives (λ x. (tree_of x.0, x.1.now)) result (tree_at (kind_of value_type.now) bytes.now) }
{
    match value_type {
        ValueType::Bool => bool_node(bytes),
        ValueType::U8 => u8_node(bytes),
        ValueType::U16 => u16_node(bytes),
        ValueType::U32 => u32_node(bytes),
        ValueType::U64 => u64_node(bytes),
        ValueType::I8 => i8_node(bytes),
        ValueType::I16 => i16_node(bytes),
        ValueType::I32 => i32_node(bytes),
        ValueType::I64 => i64_node(bytes),
        ValueType::Text => text_node(alloc, bytes),
        ValueType::Bytes => bytes_node(alloc, bytes),
        ValueType::List(item) => {
            let (count, rest) = u32_at(bytes)?;
            let (nodes, rest) = items_at(alloc, item, count, rest)?;
            Ok((Node::List(item.clone()?, nodes), rest))
        }
        ValueType::Fields(members) => {
            let (nodes, rest) = members_at(alloc, members.as_slice(), bytes)?;
            Ok((Node::Fields(nodes), rest))
        }
    }
}

/// As many items as the count says. No room is made for those that are not there.
#[cycle(node_at)]
fn items_at<'a>(
    alloc: Global,
    item: &ValueType,
    count: u32,
    bytes: &'a [u8],
) -> Result<(Vec<Node>, &'a [u8]), DecodeError>
    ensures { Gives (λ x. (trees_view x.0.items, x.1.now)) result
        (trees_by (tree_at (kind_of item.now)) count bytes.now) }
{
    let mut nodes = Vec::new(alloc);
    let mut rest = bytes;
    for _ in 0..count {
        let (node, after) = node_at(alloc, item, rest)?;
        nodes.push(node)?;
        rest = after;
    }
    Ok((nodes, rest))
}

/// One node of each type.
#[cycle(node_at)]
fn members_at<'a>(
    alloc: Global,
    types: &[ValueType],
    bytes: &'a [u8],
) -> Result<(Vec<Node>, &'a [u8]), DecodeError>
    ensures { Gives (λ x. (trees_view x.0.items, x.1.now)) result (trees_at (kinds_view types.now) bytes.now) }
{
    let mut nodes = Vec::new(alloc);
    let mut rest = bytes;
    for value_type in types {
        let (node, after) = node_at(alloc, value_type, rest)?;
        nodes.push(node)?;
        rest = after;
    }
    Ok((nodes, rest))
}

fn bool_node(bytes: &[u8]) -> Result<(Node, &[u8]), DecodeError>
    ensures { Gives (λ x. (tree_of x.0, x.1.now)) result (tree_at bool_kind bytes.now) }
{
    let (byte, rest) = byte_at(bytes)?;
    if byte == 0 {
        return Ok((Node::Bool(false), rest));
    }
    if byte == 1 {
        return Ok((Node::Bool(true), rest));
    }
    Err(DecodeError::NotAValue)
}

fn u8_node(bytes: &[u8]) -> Result<(Node, &[u8]), DecodeError>
    ensures { Gives (λ x. (tree_of x.0, x.1.now)) result (tree_at (unsigned_kind one) bytes.now) }
{
    let (number, rest) = u8_at(bytes)?;
    Ok((Node::U8(number), rest))
}

fn u16_node(bytes: &[u8]) -> Result<(Node, &[u8]), DecodeError>
    ensures { Gives (λ x. (tree_of x.0, x.1.now)) result (tree_at (unsigned_kind two) bytes.now) }
{
    let (number, rest) = u16_at(bytes)?;
    Ok((Node::U16(number), rest))
}

fn u32_node(bytes: &[u8]) -> Result<(Node, &[u8]), DecodeError>
    ensures { Gives (λ x. (tree_of x.0, x.1.now)) result (tree_at (unsigned_kind four) bytes.now) }
{
    let (number, rest) = u32_at(bytes)?;
    Ok((Node::U32(number), rest))
}

fn u64_node(bytes: &[u8]) -> Result<(Node, &[u8]), DecodeError>
    ensures { Gives (λ x. (tree_of x.0, x.1.now)) result (tree_at (unsigned_kind eight) bytes.now) }
{
    let (number, rest) = u64_at(bytes)?;
    Ok((Node::U64(number), rest))
}

fn i8_node(bytes: &[u8]) -> Result<(Node, &[u8]), DecodeError>
    ensures { Gives (λ x. (tree_of x.0, x.1.now)) result (tree_at (signed_kind one) bytes.now) }
{
    let (number, rest) = u8_at(bytes)?;
    Ok((Node::I8(number.cast_signed()), rest))
}

fn i16_node(bytes: &[u8]) -> Result<(Node, &[u8]), DecodeError>
    ensures { Gives (λ x. (tree_of x.0, x.1.now)) result (tree_at (signed_kind two) bytes.now) }
{
    let (number, rest) = u16_at(bytes)?;
    Ok((Node::I16(number.cast_signed()), rest))
}

fn i32_node(bytes: &[u8]) -> Result<(Node, &[u8]), DecodeError>
    ensures { Gives (λ x. (tree_of x.0, x.1.now)) result (tree_at (signed_kind four) bytes.now) }
{
    let (number, rest) = u32_at(bytes)?;
    Ok((Node::I32(number.cast_signed()), rest))
}

fn i64_node(bytes: &[u8]) -> Result<(Node, &[u8]), DecodeError>
    ensures { Gives (λ x. (tree_of x.0, x.1.now)) result (tree_at (signed_kind eight) bytes.now) }
{
    let (number, rest) = u64_at(bytes)?;
    Ok((Node::I64(number.cast_signed()), rest))
}

fn text_node(alloc: Global, bytes: &[u8]) -> Result<(Node, &[u8]), DecodeError>
    ensures { Gives (λ x. (tree_of x.0, x.1.now)) result (tree_at text_kind bytes.now) }
{
    let (content, rest) = counted_at(bytes)?;
    let text = text_of(content)?;
    let text = String::from_str(alloc, text)?;
    Ok((Node::Text(ValueText::new(text)), rest))
}

fn bytes_node(alloc: Global, bytes: &[u8]) -> Result<(Node, &[u8]), DecodeError>
    ensures { Gives (λ x. (tree_of x.0, x.1.now)) result (tree_at bytes_kind bytes.now) }
{
    let (content, rest) = counted_at(bytes)?;
    Ok((
        Node::Bytes(Bytes::new(Vec::from_slice(alloc, content)?)),
        rest,
    ))
}
