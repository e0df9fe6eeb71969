//! Whether bytes begin with the code of a type. Nothing here allocates.

ghost use Rattle.std.specs.Prelude.{◌≡◌, ◌↔◌, ◌∷◌, [], IsTrue, Some, is_some, option_copied, option_map};
ghost use Rattle.key_maps.specs.Fronts.{after};
ghost use Rattle.value_code.specs.Reading.{decoded, is_encoding};
ghost use Rattle.value_model.specs.Kinds.{type_code, type_codes};
ghost use Rattle.value_model.specs.Trees.{type_of, types_of};
ghost use Rattle.value_model.specs.Views.{kind_of, kinds_view, tree_of, trees_view};

use value_model::{Node, Value, ValueType};

// The first byte of the code of each type.
const BOOL: usize = 1;

const U8: usize = 2;

const U16: usize = 3;

const U32: usize = 4;

const U64: usize = 5;

const I8: usize = 6;

const I16: usize = 7;

const I32: usize = 8;

const I64: usize = 9;

const TEXT: usize = 10;

const BYTES: usize = 11;

const LIST: usize = 12;

const FIELDS: usize = 13;

/// Whether the value that the bytes encode has the type of the other one.
pub(crate) fn has_type_of(bytes: &[u8], other: &Value) -> bool
    requires { IsTrue (is_encoding bytes.now) }
    ensures { IsTrue result ↔ (option_map type_of (decoded bytes.now) ≡ Some (type_of other.now)) }
{
    begin_with_type_of(bytes, other.node())
}

/// Whether the bytes begin with the code of the node's type.
fn begin_with_type_of(bytes: &[u8], node: &Node) -> bool
    ensures { result ≡ is_some (after (type_code (type_of (tree_of node.now))) bytes.now) }
{
    after_type_of(node, bytes).is_some()
}

/// What follows the code of the node's type, where the bytes begin with it.
#[cycle(after_type_of)]
fn after_type_of<'a>(node: &Node, bytes: &'a [u8]) -> Option<&'a [u8]>
    ensures { option_copied result ≡ after (type_code (type_of (tree_of node.now))) bytes.now }
{
    match node {
        Node::Bool(_) => after_byte(BOOL, bytes),
        Node::U8(_) => after_byte(U8, bytes),
        Node::U16(_) => after_byte(U16, bytes),
        Node::U32(_) => after_byte(U32, bytes),
        Node::U64(_) => after_byte(U64, bytes),
        Node::I8(_) => after_byte(I8, bytes),
        Node::I16(_) => after_byte(I16, bytes),
        Node::I32(_) => after_byte(I32, bytes),
        Node::I64(_) => after_byte(I64, bytes),
        Node::Text(_) => after_byte(TEXT, bytes),
        Node::Bytes(_) => after_byte(BYTES, bytes),
        Node::List(item, _) => after_type(item, after_byte(LIST, bytes)?),
        Node::Fields(members) => {
            let rest = after_byte(FIELDS, bytes)?;
            let rest = after_byte(members.len(), rest)?;
            after_types_of(members.as_slice(), rest)
        }
    }
}

#[cycle(after_type_of)]
fn after_types_of<'a>(nodes: &[Node], bytes: &'a [u8]) -> Option<&'a [u8]>
    ensures { option_copied result ≡ after (type_codes (types_of (trees_view nodes.now))) bytes.now }
{
    let mut rest = bytes;
    for node in nodes {
        rest = after_type_of(node, rest)?;
    }
    Some(rest)
}

/// What follows the code of the type, where the bytes begin with it.
#[cycle(after_type)]
fn after_type<'a>(value_type: &ValueType, bytes: &'a [u8]) -> Option<&'a [u8]>
    ensures { option_copied result ≡ after (type_code (kind_of value_type.now)) bytes.now }
{
    match value_type {
        ValueType::Bool => after_byte(BOOL, bytes),
        ValueType::U8 => after_byte(U8, bytes),
        ValueType::U16 => after_byte(U16, bytes),
        ValueType::U32 => after_byte(U32, bytes),
        ValueType::U64 => after_byte(U64, bytes),
        ValueType::I8 => after_byte(I8, bytes),
        ValueType::I16 => after_byte(I16, bytes),
        ValueType::I32 => after_byte(I32, bytes),
        ValueType::I64 => after_byte(I64, bytes),
        ValueType::Text => after_byte(TEXT, bytes),
        ValueType::Bytes => after_byte(BYTES, bytes),
        ValueType::List(item) => after_type(item, after_byte(LIST, bytes)?),
        ValueType::Fields(members) => {
            let rest = after_byte(FIELDS, bytes)?;
            let rest = after_byte(members.len(), rest)?;
            after_types(members.as_slice(), rest)
        }
    }
}

#[cycle(after_type)]
fn after_types<'a>(types: &[ValueType], bytes: &'a [u8]) -> Option<&'a [u8]>
    ensures { option_copied result ≡ after (type_codes (kinds_view types.now)) bytes.now }
{
    let mut rest = bytes;
    for value_type in types {
        rest = after_type(value_type, rest)?;
    }
    Some(rest)
}

/// What follows this byte, where the bytes begin with it.
fn after_byte(byte: usize, bytes: &[u8]) -> Option<&[u8]>
    ensures { option_copied result ≡ after (byte ∷ []) bytes.now }
{
    match bytes {
        [] => None,
        [first, rest @ ..] => {
            if byte != usize::from(*first) {
                return None;
            }
            Some(rest)
        }
    }
}
