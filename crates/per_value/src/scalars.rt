//! Truth values.

use crate::conversion::PerValue;
use std::alloc::{AllocError, Global};
use value_model::{Node, ValueType};

impl PerValue for bool {
    ghost use Rattle.std.specs.Prelude.{◌≡◌};
    ghost use Rattle.std.proofs.Common.{refl};
    ghost use Rattle.value_model.specs.Kinds.{bool_kind};
    ghost use Rattle.value_model.specs.Trees.{bool_tree};

    ghost kind = { bool_kind };

    ghost tree = { bool_tree };

    ghost same = { λ x y. x ≡ y };

    fn type_of(_alloc: Global) -> Result<ValueType, AllocError> {
        Ok(ValueType::Bool)
    }

    fn to_node(&self, _alloc: Global) -> Result<Node, AllocError> {
        Ok(Node::Bool(*self))
    }

    fn from_node(_alloc: Global, node: &Node) -> Result<bool, AllocError> {
        match node {
            Node::Bool(truth) => Ok(*truth),
            _ => unreachable!(),
        }
    }

    ghost proper = { refl };

    ghost has_type = { λ _. refl };

    ghost well_typed = { λ _. tt };

    ghost faithful = { λ x y e. Prim.cc };
}
