//! How deep a node's type nests and how long its encoding is, each counted to just above the limit.

ghost use Rattle.std.specs.Prelude.{◌≡◌, ℕ, ◌+◌, ◌<◌, ◌≤◌, length, min, slice_index};
ghost use Rattle.value_model.specs.Encoding.{encoding, payload, payloads};
ghost use Rattle.value_model.specs.Kinds.{kind_depth, kinds_depth, type_code, type_codes};
ghost use Rattle.value_model.specs.Trees.{type_of, types_of};
ghost use Rattle.value_model.specs.Validity.{AllInRange, InRange};
ghost use Rattle.value_model.specs.Views.{kind_of, kinds_view, tree_of, trees_view};

use crate::limits::{OVER_DEPTH, OVER_LENGTH, add_lengths};
use crate::nodes::Node;
use crate::types::ValueType;

/// The depth of the node's type, at most one more than a value's.
#[cycle(node_depth)]
pub(crate) fn node_depth(node: &Node) -> u32
    ensures { result ≡ min (kind_depth (type_of (tree_of node.now))) 9 }
{
    match node {
        Node::List(item, _) => deeper(type_depth(item)),
        Node::Fields(nodes) => deeper(nodes_depth(nodes.as_slice())),
        _ => 1,
    }
}

#[cycle(node_depth)]
fn nodes_depth(nodes: &[Node]) -> u32
    ensures { result ≡ min (kinds_depth (types_of (trees_view nodes.now))) 9 }
{
    let mut deepest = 0;
    for node in nodes {
        deepest = deepest.max(node_depth(node));
    }
    deepest
}

/// The depth of a type, at most one more than a value's.
#[cycle(type_depth)]
fn type_depth(value_type: &ValueType) -> u32
    ensures { result ≡ min (kind_depth (kind_of value_type.now)) 9 }
{
    match value_type {
        ValueType::List(item) => deeper(type_depth(item)),
        ValueType::Fields(members) => deeper(types_depth(members.as_slice())),
        _ => 1,
    }
}

#[cycle(type_depth)]
fn types_depth(types: &[ValueType]) -> u32
    ensures { result ≡ min (kinds_depth (kinds_view types.now)) 9 }
{
    let mut deepest = 0;
    for value_type in types {
        deepest = deepest.max(type_depth(value_type));
    }
    deepest
}

fn deeper(depth: u32) -> u32
    requires { depth ≤ 9 }
    ensures { result ≡ min (depth + 1) 9 }
{
    (depth + 1).min(OVER_DEPTH)
}

/// The length of the node's encoding, at most one more than a value's. What the node's own types say of its numbers,
/// texts and bytes is learnt on the way.
pub(crate) fn encoded_length(node: &Node) -> usize
    ensures length { result ≡ min (length (encoding (tree_of node.now))) 65537 }
    ensures range { InRange (tree_of node.now) }
{
    add_lengths(code_length(node), payload_length(node))
}

/// The length of the code of the node's type.
#[cycle(code_length)]
fn code_length(node: &Node) -> usize
    ensures { result ≡ min (length (type_code (type_of (tree_of node.now)))) 65537 }
{
    match node {
        Node::List(item, _) => add_lengths(1, type_length(item)),
        Node::Fields(nodes) => add_lengths(2, codes_length(nodes.as_slice())),
        _ => 1,
    }
}

#[cycle(code_length)]
fn codes_length(nodes: &[Node]) -> usize
    ensures { result ≡ min (length (type_codes (types_of (trees_view nodes.now)))) 65537 }
{
    let mut total = 0;
    for node in nodes {
        total = add_lengths(total, code_length(node));
    }
    total
}

#[cycle(type_length)]
fn type_length(value_type: &ValueType) -> usize
    ensures { result ≡ min (length (type_code (kind_of value_type.now))) 65537 }
{
    match value_type {
        ValueType::List(item) => add_lengths(1, type_length(item)),
        ValueType::Fields(members) => add_lengths(2, types_length(members.as_slice())),
        _ => 1,
    }
}

#[cycle(type_length)]
fn types_length(types: &[ValueType]) -> usize
    ensures { result ≡ min (length (type_codes (kinds_view types.now))) 65537 }
{
    let mut total = 0;
    for value_type in types {
        total = add_lengths(total, type_length(value_type));
    }
    total
}

#[cycle(payload_length)]
fn payload_length(node: &Node) -> usize
    ensures length { result ≡ min (length (payload (tree_of node.now))) 65537 }
    ensures range { InRange (tree_of node.now) }
{
    match node {
        Node::Bool(_) => 1,
        Node::U8(number) => number.to_le_bytes().len(),
        Node::U16(number) => number.to_le_bytes().len(),
        Node::U32(number) => number.to_le_bytes().len(),
        Node::U64(number) => number.to_le_bytes().len(),
        Node::I8(number) => number.to_le_bytes().len(),
        Node::I16(number) => number.to_le_bytes().len(),
        Node::I32(number) => number.to_le_bytes().len(),
        Node::I64(number) => number.to_le_bytes().len(),
        Node::Text(text) => counted_length(text.as_str().as_bytes()),
        Node::Bytes(bytes) => counted_length(bytes.as_slice()),
        Node::List(_, nodes) => add_lengths(4, payloads_length(nodes.as_slice())),
        Node::Fields(nodes) => payloads_length(nodes.as_slice()),
    }
}

#[cycle(payload_length)]
fn payloads_length(nodes: &[Node]) -> usize
    ensures length { result ≡ min (length (payloads (trees_view nodes.now))) 65537 }
    ensures range { AllInRange (trees_view nodes.now) }
{
    let mut total = 0;
    for node in nodes {
        total = add_lengths(total, payload_length(node));
    }
    total
}

/// The length of four bytes that say how many bytes follow, and of those.
fn counted_length(bytes: &[u8]) -> usize
    ensures length { result ≡ min (4 + length bytes.now) 65537 }
    ensures range { (i : ℕ) → slice_index bytes.now i < 256 }
{
    add_lengths(4, bytes.len().min(OVER_LENGTH))
}
