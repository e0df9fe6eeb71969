//! Values: nodes that keep the rules.

ghost use Rattle.std.specs.Prelude.{◌≡◌, ◌≢◌, ◌<◌, ◌≤◌, ◌↔◌, IfOk, IsTrue, length, IsErrOf};
ghost use Rattle.value_model.specs.Encoding.{encoding};
ghost use Rattle.value_model.specs.Kinds.{kind_depth};
ghost use Rattle.value_model.specs.Trees.{type_of};
ghost use Rattle.value_model.specs.Validity.{IsTyped, IsValue};
ghost use Rattle.value_model.specs.Views.{kind_of, tree_of};

use crate::errors::ValueError;
use crate::limits::{MAX_DEPTH, MAX_LENGTH};
use crate::nodes::Node;
use crate::sizes::{encoded_length, node_depth};
use crate::types::ValueType;
use crate::typing::{has_type, is_typed, type_of_node};
use std::alloc::{AllocError, Global};
use std::marker::Model;

/// A node that is well typed and keeps to the limits. Contracts see the node's tree.
#[derive(Debug, Drop)]
pub struct Value {
    node: Node,
}

impl Model for Value {
    ghost use Rattle.value_model.specs.Trees.{Tree};
    ghost use Rattle.value_model.specs.Codes.{tree_code};

    ghost Value = { Tree };

    ghost coded = { tree_code };

    ghost use Rattle.value_model.specs.Validity.{IsValue};
    ghost use Rattle.value_model.specs.Views.{tree_of};

    ghost view = { λ v. tree_of v.node };

    ghost invariant = { λ v. IsValue (tree_of v.node) };
}

impl Value {
    /// The value of this node.
    ///
    /// Errors, the first that fits: `IllTyped` where a list item has not the list's item type or a group of fields,
    /// also in an item type, has not 1 to 32 members; `TooDeep` where the type nests more than 8 deep; `TooLong` where
    /// the encoding has more than 65,536 bytes. It does not allocate. The checks recurse as deep as the node and its
    /// item types nest, as dropping them does, since a fault deep inside comes before `TooDeep`: limit the depth of
    /// what comes from outside.
    pub fn new(node: Node) -> Result<Value, ValueError>
        // the value is the node's tree, and obeys the four rules
        ensures value { IfOk result (λ v. (v ≡ tree_of node) × IsValue (tree_of node)) }

        // each refusal comes where its rule fails and those before it hold
        ensures ill_typed { IsErrOf result ValueError.IllTyped → ¬ IsTyped (tree_of node) }
        ensures too_deep { IsErrOf result ValueError.TooDeep
            → IsTyped (tree_of node) × (8 < kind_depth (type_of (tree_of node))) }
        ensures too_long { IsErrOf result ValueError.TooLong → IsTyped (tree_of node)
            × ((kind_depth (type_of (tree_of node)) ≤ 8) × (65536 < length (encoding (tree_of node)))) }

        // it needs no memory
        ensures no_memory { result ≢ Err ValueError.OutOfMemory }
    {
        if !is_typed(&node) {
            return Err(ValueError::IllTyped);
        }
        if node_depth(&node) > MAX_DEPTH {
            return Err(ValueError::TooDeep);
        }
        if encoded_length(&node) > MAX_LENGTH {
            return Err(ValueError::TooLong);
        }
        Ok(Value { node })
    }

    /// A copy of the value; the error says that memory ran out.
    pub fn copy(&self, alloc: Global) -> Result<Value, AllocError>
        ensures { IfOk result (λ copy. copy ≡ self.now) }
    {
        let node = self.node.copy(alloc)?;
        Ok(Value { node })
    }

    /// The value's type, as a new `ValueType`; the error says that memory ran out.
    pub fn value_type(&self, alloc: Global) -> Result<ValueType, AllocError>
        ensures { IfOk result (λ t. kind_of t ≡ type_of self.now) }
    {
        type_of_node(alloc, &self.node)
    }

    /// Whether the value has this type.
    pub fn has_type(&self, value_type: &ValueType) -> bool
        ensures { IsTrue result ↔ (type_of self.now ≡ kind_of value_type.now) }
    {
        has_type(&self.node, value_type)
    }

    /// The length of the value's encoding in bytes, at most 65,536. It does not allocate.
    pub fn encoded_len(&self) -> usize
        ensures { result ≡ length (encoding self.now) }
    {
        encoded_length(&self.node)
    }

    /// The node itself, borrowed. Its tree is the value, of which the rules hold.
    pub fn node(&self) -> &Node
        ensures tree { tree_of result.now ≡ self.now }
        ensures valid { IsValue self.now }
    {
        &self.node
    }

    /// The node itself, handed back. Its tree is the value, of which the rules hold. Does not allocate.
    pub fn into_node(self) -> Node
        ensures tree { tree_of result ≡ self }
        ensures valid { IsValue self }
    {
        self.node
    }
}
