//! The trait of types whose things are values.

ghost use Rattle.std.specs.Prelude.{◌≡◌, ◌≢◌, ◌<◌, ◌≤◌, IfOk, IsTrue, OnErr, length, IsErrOf};
ghost use Rattle.value_model.specs.Encoding.{encoding};
ghost use Rattle.value_model.specs.Kinds.{Kind, kind_depth, kind_fits};
ghost use Rattle.value_model.specs.Trees.{Tree, type_of};
ghost use Rattle.value_model.specs.Validity.{IsTyped, IsValue, max_depth, max_length};
ghost use Rattle.value_model.specs.Views.{kind_of, tree_of};
ghost use Rattle.per_value.specs.Memory.{Allocates};

use std::alloc::{AllocError, Global};
use value_model::{Node, Value, ValueError, ValueType};

/// A type of the program whose things, as its own values are called here, are typed values.
///
/// An implementation says which value type it has (`kind`), which tree a thing of it is (`tree`) and when two things
/// are the same (`same`), and proves the four laws at the end.
pub trait PerValue: Sized {
    /// The value type of all things of this type.
    ghost kind: { Kind };

    /// The tree that a thing is.
    ghost tree: { Self → Tree };

    /// When two things are the same: lists, bytes and texts by their items, wherever they are in memory.
    ghost same: { Self → Self → Type 0 };

    /// The value type of all things of this type. Does not allocate for a truth value or a number.
    fn type_of(alloc: Global) -> Result<ValueType, AllocError>
        ensures of_kind { IfOk result (λ t. kind_of t ≡ kind) }

        // memory runs out only where the type is no truth value and no number
        ensures memory { OnErr result (Allocates kind) };

    /// The node that this thing is. Does not allocate for a truth value or a number.
    fn to_node(&self, alloc: Global) -> Result<Node, AllocError>
        ensures node { IfOk result (λ node. tree_of node ≡ tree self.now) }

        // memory runs out only where the type is no truth value and no number
        ensures memory { OnErr result (Allocates kind) };

    /// The thing that this node is; the node must be well typed and have this type. Does not allocate for a truth value
    /// or a number.
    fn from_node(alloc: Global, node: &Node) -> Result<Self, AllocError>
        requires of_type { type_of (tree_of node.now) ≡ kind }
        requires typed { IsTyped (tree_of node.now) }
        ensures thing { IfOk result (λ thing. tree thing ≡ tree_of node.now) }

        // memory runs out only where the type is no truth value and no number
        ensures memory { OnErr result (Allocates kind) };

    /// The value that this thing is.
    ///
    /// Errors, the first that fits: `TooDeep` where its type nests more than 8 deep; `TooLong` where its encoding has
    /// more than 65,536 bytes; `OutOfMemory`, but for a truth value or a number. It is never `IllTyped`.
    final fn to_value(&self, alloc: Global) -> Result<Value, ValueError>
        // the value is the thing's tree, has the type of all things of `Self`, and obeys the rules of values
        ensures value { IfOk result (λ value. value ≡ tree self.now) }
        ensures of_type { IfOk result (λ value. type_of value ≡ kind) }
        ensures valid { IfOk result (λ value. IsValue value) }

        // each refusal comes where its rule fails and those before it hold
        ensures too_deep { IsErrOf result ValueError.TooDeep → max_depth < kind_depth (type_of (tree self.now)) }
        ensures too_long { IsErrOf result ValueError.TooLong
            → (kind_depth (type_of (tree self.now)) ≤ max_depth) × (max_length < length (encoding (tree self.now))) }
        ensures well_typed { result ≢ Err ValueError.IllTyped }
        ensures memory { IsErrOf result ValueError.OutOfMemory → Allocates kind }
    {
        Value::new(self.to_node(alloc)?)
    }

    /// The thing that this value is; the value must have this type. Does not allocate for a truth value or a number.
    final fn from_value(alloc: Global, value: &Value) -> Result<Self, AllocError>
        requires of_type { type_of value.now ≡ kind }
        ensures valid { IsValue value.now }
        ensures thing { IfOk result (λ thing. tree thing ≡ value.now) }

        // whichever thing (`origin`) has this value, the thing returned is the same one
        ensures back { IfOk result (λ thing. (origin : Self) → tree origin ≡ value.now → same origin thing) }

        // memory runs out only where the type is no truth value and no number
        ensures memory { OnErr result (Allocates kind) }
    {
        Self::from_node(alloc, value.node())
    }

    /// Each group of fields in the value type has 1 to 32 members.
    ghost proper: { IsTrue (kind_fits kind) };

    /// Each thing has the value type.
    ghost has_type: { (thing : Self) → type_of (tree thing) ≡ kind };

    /// Each thing is well typed.
    ghost well_typed: { (thing : Self) → IsTyped (tree thing) };

    /// Things with one tree are the same.
    ghost faithful: { (thing other : Self) → tree thing ≡ tree other → same thing other };
}
