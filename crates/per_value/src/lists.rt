//! Lists: a `Vec` of things whose type has values.

ghost use Rattle.std.specs.Prelude.{◌≡◌, IfOk};
ghost use Rattle.per_value.specs.Items.{trees_each};
ghost use Rattle.value_model.specs.Validity.{AllOf, AllTyped};
ghost use Rattle.value_model.specs.Views.{trees_view};

use crate::conversion::PerValue;
use std::alloc::{AllocError, Global};
use std::rc::Rc;
use value_model::{Node, ValueType};

impl<T: PerValue + Drop> PerValue for Vec<T> {
    ghost use Rattle.per_value.specs.Items.{AllSame, items_same, list_typed, trees_each};
    ghost use Rattle.std.proofs.Common.{refl};
    ghost use Rattle.value_model.specs.Kinds.{list_kind};
    ghost use Rattle.value_model.specs.Trees.{list_tree};

    ghost kind = { list_kind T.kind };

    ghost tree = { λ list. list_tree T.kind (trees_each T.tree list.items) };

    ghost same = { λ list other. AllSame T.same list.items other.items };

    fn type_of(alloc: Global) -> Result<ValueType, AllocError> {
        Ok(ValueType::List(Rc::new(alloc, T::type_of(alloc)?)?))
    }

    fn to_node(&self, alloc: Global) -> Result<Node, AllocError> {
        let item_type = Rc::new(alloc, T::type_of(alloc)?)?;
        Ok(Node::List(item_type, nodes_of(alloc, self.as_slice())?))
    }

    fn from_node(alloc: Global, node: &Node) -> Result<Vec<T>, AllocError> {
        match node {
            Node::List(_, nodes) => things_of(alloc, nodes.as_slice()),
            _ => unreachable!(),
        }
    }

    ghost proper = { T.proper };

    ghost has_type = { λ _. refl };

    ghost well_typed = { λ list. list_typed T.tree T.kind T.proper T.has_type T.well_typed list.items };

    ghost faithful = { λ list other e. items_same T.tree T.same T.faithful list.items other.items Prim.cc };
}

/// The nodes of all these things.
fn nodes_of<T: PerValue>(alloc: Global, things: &[T]) -> Result<Vec<Node>, AllocError>
    ensures { IfOk result (λ nodes. trees_view nodes.items ≡ trees_each T.tree things.now) }
{
    let mut nodes = Vec::new(alloc);
    for thing in things {
        nodes.push(thing.to_node(alloc)?)?;
    }
    Ok(nodes)
}

/// The things that all these nodes are.
fn things_of<T: PerValue + Drop>(alloc: Global, nodes: &[Node]) -> Result<Vec<T>, AllocError>
    requires of_type { AllOf T.kind (trees_view nodes.now) }
    requires typed { AllTyped (trees_view nodes.now) }
    ensures { IfOk result (λ things. trees_each T.tree things.items ≡ trees_view nodes.now) }
{
    let mut things = Vec::new(alloc);
    for node in nodes {
        things.push(T::from_node(alloc, node)?)?;
    }
    Ok(things)
}
