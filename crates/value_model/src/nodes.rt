//! The tree that a value holds.

ghost use Rattle.std.specs.Prelude.{◌≡◌, IfOk};
ghost use Rattle.value_model.specs.Views.{tree_of, trees_view};

use crate::types::ValueType;
use per_base::{Bytes, ValueText};
use std::alloc::{AllocError, Global};
use std::rc::Rc;

/// A tree of contents. It need not be well typed: a [`crate::Value`] holds one that is.
#[derive(Debug, Drop)]
pub enum Node {
    Bool(bool),
    U8(u8),
    U16(u16),
    U32(u32),
    U64(u64),
    I8(i8),
    I16(i16),
    I32(i32),
    I64(i64),
    Text(ValueText),
    Bytes(Bytes),
    /// A list: the type of its items, which lists of this type share, and the items.
    List(Rc<ValueType>, Vec<Node>),
    /// A group of fields: its members, in order. They have no names.
    Fields(Vec<Node>),
}

impl Node {
    /// A copy of the node; the error says that memory ran out.
    #[cycle(copies)]
    pub fn copy(&self, alloc: Global) -> Result<Node, AllocError>
        ensures { IfOk result (λ copy. tree_of copy ≡ tree_of self.now) }
    {
        Ok(match self {
            Node::Bool(truth) => Node::Bool(*truth),
            Node::U8(number) => Node::U8(*number),
            Node::U16(number) => Node::U16(*number),
            Node::U32(number) => Node::U32(*number),
            Node::U64(number) => Node::U64(*number),
            Node::I8(number) => Node::I8(*number),
            Node::I16(number) => Node::I16(*number),
            Node::I32(number) => Node::I32(*number),
            Node::I64(number) => Node::I64(*number),
            Node::Text(text) => Node::Text(text.copy()?),
            Node::Bytes(bytes) => Node::Bytes(bytes.copy()?),
            Node::List(item, nodes) => {
                Node::List(item.clone()?, copies(alloc, nodes.as_slice())?)
            }
            Node::Fields(nodes) => Node::Fields(copies(alloc, nodes.as_slice())?),
        })
    }
}

#[cycle(copies)]
fn copies(alloc: Global, nodes: &[Node]) -> Result<Vec<Node>, AllocError>
    ensures { IfOk result (λ copies. trees_view copies.items ≡ trees_view nodes.now) }
{
    let mut all = Vec::new(alloc);
    for node in nodes {
        all.push(node.copy(alloc)?)?;
    }
    Ok(all)
}
