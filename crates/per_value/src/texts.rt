//! Texts, and bytes.

use crate::conversion::PerValue;
use per_base::{Bytes, ValueText};
use std::alloc::{AllocError, Global};
use value_model::{Node, ValueType};

impl PerValue for ValueText {
    ghost use Rattle.std.specs.Prelude.{◌≡◌};
    ghost use Rattle.std.proofs.Common.{refl};
    ghost use Rattle.value_model.specs.Kinds.{text_kind};
    ghost use Rattle.value_model.specs.Trees.{text_tree};

    ghost kind = { text_kind };

    ghost tree = { text_tree };

    ghost same = { λ x y. x ≡ y };

    fn type_of(_alloc: Global) -> Result<ValueType, AllocError> {
        Ok(ValueType::Text)
    }

    fn to_node(&self, _alloc: Global) -> Result<Node, AllocError> {
        Ok(Node::Text(self.copy()?))
    }

    fn from_node(_alloc: Global, node: &Node) -> Result<ValueText, AllocError> {
        match node {
            Node::Text(text) => text.copy(),
            _ => unreachable!(),
        }
    }

    ghost proper = { refl };

    ghost has_type = { λ _. refl };

    ghost well_typed = { λ _. tt };

    ghost faithful = { λ x y e. Prim.cc };
}

impl PerValue for Bytes {
    ghost use Rattle.std.specs.Prelude.{◌≡◌};
    ghost use Rattle.std.proofs.Common.{refl};
    ghost use Rattle.value_model.specs.Kinds.{bytes_kind};
    ghost use Rattle.value_model.specs.Trees.{bytes_tree};

    ghost kind = { bytes_kind };

    ghost tree = { bytes_tree };

    ghost same = { λ x y. x ≡ y };

    fn type_of(_alloc: Global) -> Result<ValueType, AllocError> {
        Ok(ValueType::Bytes)
    }

    fn to_node(&self, _alloc: Global) -> Result<Node, AllocError> {
        Ok(Node::Bytes(self.copy()?))
    }

    fn from_node(_alloc: Global, node: &Node) -> Result<Bytes, AllocError> {
        match node {
            Node::Bytes(bytes) => bytes.copy(),
            _ => unreachable!(),
        }
    }

    ghost proper = { refl };

    ghost has_type = { λ _. refl };

    ghost well_typed = { λ _. tt };

    ghost faithful = { λ x y e. Prim.cc };
}
