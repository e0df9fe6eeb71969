//! Whether a node has a type, and whether it is well typed.

ghost use Rattle.std.specs.Prelude.{◌≡◌, ◌↔◌, IfOk, IsTrue};
ghost use Rattle.value_model.specs.Kinds.{kind_fits};
ghost use Rattle.value_model.specs.Trees.{type_of, types_of};
ghost use Rattle.value_model.specs.Validity.{AllOf, AllTyped, IsTyped};
ghost use Rattle.value_model.specs.Views.{kind_of, kinds_view, tree_of, trees_view};

use crate::limits::is_group_size;
use crate::nodes::Node;
use crate::types::ValueType;
use std::alloc::{AllocError, Global};

/// Whether the node has this type.
#[cycle(has_type)]
pub(crate) fn has_type(node: &Node, value_type: &ValueType) -> bool
    ensures { IsTrue result ↔ (type_of (tree_of node.now) ≡ kind_of value_type.now) }
{
    match node {
        Node::Bool(_) => matches!(value_type, ValueType::Bool),
        Node::U8(_) => matches!(value_type, ValueType::U8),
        Node::U16(_) => matches!(value_type, ValueType::U16),
        Node::U32(_) => matches!(value_type, ValueType::U32),
        Node::U64(_) => matches!(value_type, ValueType::U64),
        Node::I8(_) => matches!(value_type, ValueType::I8),
        Node::I16(_) => matches!(value_type, ValueType::I16),
        Node::I32(_) => matches!(value_type, ValueType::I32),
        Node::I64(_) => matches!(value_type, ValueType::I64),
        Node::Text(_) => matches!(value_type, ValueType::Text),
        Node::Bytes(_) => matches!(value_type, ValueType::Bytes),
        Node::List(item, _) => match value_type {
            ValueType::List(wanted) => item.is_same(wanted),
            _ => false,
        },
        Node::Fields(nodes) => match value_type {
            ValueType::Fields(types) => have_types(nodes.as_slice(), types.as_slice()),
            _ => false,
        },
    }
}

#[cycle(has_type)]
fn have_types(nodes: &[Node], types: &[ValueType]) -> bool
    ensures { IsTrue result ↔ (types_of (trees_view nodes.now) ≡ kinds_view types.now) }
{
    if nodes.len() != types.len() {
        return false;
    }
    for (i, node) in nodes.iter().enumerate() {
        if !has_type(node, &types[i]) {
            return false;
        }
    }
    true
}

/// Whether every list item has the list's item type and every group of fields 1 to 32 members.
#[cycle(is_typed)]
pub(crate) fn is_typed(node: &Node) -> bool
    ensures { IsTrue result ↔ IsTyped (tree_of node.now) }
{
    match node {
        Node::List(item, nodes) => {
            if !are_items(nodes.as_slice(), item) {
                return false;
            }
            all_typed(nodes.as_slice())
        }
        Node::Fields(nodes) => {
            if !is_group_size(nodes.len()) {
                return false;
            }
            all_typed(nodes.as_slice())
        }
        _ => true,
    }
}

#[cycle(is_typed)]
fn all_typed(nodes: &[Node]) -> bool
    ensures { IsTrue result ↔ AllTyped (trees_view nodes.now) }
{
    for node in nodes {
        if !is_typed(node) {
            return false;
        }
    }
    true
}

/// Whether a list's item type keeps the rule for groups, and each item has it.
fn are_items(nodes: &[Node], item: &ValueType) -> bool
    ensures { IsTrue result
        ↔ (IsTrue (kind_fits (kind_of item.now)) × AllOf (kind_of item.now) (trees_view nodes.now)) }
{
    if !item.fits() {
        return false;
    }
    for node in nodes {
        if !has_type(node, item) {
            return false;
        }
    }
    true
}

/// The node's type.
#[cycle(type_of_node)]
pub(crate) fn type_of_node(alloc: Global, node: &Node) -> Result<ValueType, AllocError>
    ensures { IfOk result (λ t. kind_of t ≡ type_of (tree_of node.now)) }
{
    Ok(match node {
        Node::Bool(_) => ValueType::Bool,
        Node::U8(_) => ValueType::U8,
        Node::U16(_) => ValueType::U16,
        Node::U32(_) => ValueType::U32,
        Node::U64(_) => ValueType::U64,
        Node::I8(_) => ValueType::I8,
        Node::I16(_) => ValueType::I16,
        Node::I32(_) => ValueType::I32,
        Node::I64(_) => ValueType::I64,
        Node::Text(_) => ValueType::Text,
        Node::Bytes(_) => ValueType::Bytes,
        Node::List(item, _) => ValueType::List(item.clone()?),
        Node::Fields(nodes) => ValueType::Fields(types_of_nodes(alloc, nodes.as_slice())?),
    })
}

#[cycle(type_of_node)]
fn types_of_nodes(alloc: Global, nodes: &[Node]) -> Result<Vec<ValueType>, AllocError>
    ensures { IfOk result (λ types. kinds_view types.items ≡ types_of (trees_view nodes.now)) }
{
    let mut types = Vec::new(alloc);
    for node in nodes {
        types.push(type_of_node(alloc, node)?)?;
    }
    Ok(types)
}
