//! Signed numbers of 8, 16, 32 and 64 bits.

use crate::conversion::PerValue;
use std::alloc::{AllocError, Global};
use value_model::{Node, ValueType};

impl PerValue for i8 {
    ghost use Rattle.std.specs.Prelude.{◌≡◌};
    ghost use Rattle.std.proofs.Common.{refl};
    ghost use Rattle.value_model.specs.Kinds.{one, signed_kind};
    ghost use Rattle.value_model.specs.Trees.{signed_tree};

    ghost kind = { signed_kind one };

    ghost tree = { signed_tree one };

    ghost same = { λ x y. x ≡ y };

    fn type_of(_alloc: Global) -> Result<ValueType, AllocError> {
        Ok(ValueType::I8)
    }

    fn to_node(&self, _alloc: Global) -> Result<Node, AllocError> {
        Ok(Node::I8(*self))
    }

    fn from_node(_alloc: Global, node: &Node) -> Result<i8, AllocError> {
        match node {
            Node::I8(number) => Ok(*number),
            _ => unreachable!(),
        }
    }

    ghost proper = { refl };

    ghost has_type = { λ _. refl };

    ghost well_typed = { λ _. tt };

    ghost faithful = { λ x y e. Prim.cc };
}

impl PerValue for i16 {
    ghost use Rattle.std.specs.Prelude.{◌≡◌};
    ghost use Rattle.std.proofs.Common.{refl};
    ghost use Rattle.value_model.specs.Kinds.{signed_kind, two};
    ghost use Rattle.value_model.specs.Trees.{signed_tree};

    ghost kind = { signed_kind two };

    ghost tree = { signed_tree two };

    ghost same = { λ x y. x ≡ y };

    fn type_of(_alloc: Global) -> Result<ValueType, AllocError> {
        Ok(ValueType::I16)
    }

    fn to_node(&self, _alloc: Global) -> Result<Node, AllocError> {
        Ok(Node::I16(*self))
    }

    fn from_node(_alloc: Global, node: &Node) -> Result<i16, AllocError> {
        match node {
            Node::I16(number) => Ok(*number),
            _ => unreachable!(),
        }
    }

    ghost proper = { refl };

    ghost has_type = { λ _. refl };

    ghost well_typed = { λ _. tt };

    ghost faithful = { λ x y e. Prim.cc };
}

impl PerValue for i32 {
    ghost use Rattle.std.specs.Prelude.{◌≡◌};
    ghost use Rattle.std.proofs.Common.{refl};
    ghost use Rattle.value_model.specs.Kinds.{four, signed_kind};
    ghost use Rattle.value_model.specs.Trees.{signed_tree};

    ghost kind = { signed_kind four };

    ghost tree = { signed_tree four };

    ghost same = { λ x y. x ≡ y };

    fn type_of(_alloc: Global) -> Result<ValueType, AllocError> {
        Ok(ValueType::I32)
    }

    fn to_node(&self, _alloc: Global) -> Result<Node, AllocError> {
        Ok(Node::I32(*self))
    }

    fn from_node(_alloc: Global, node: &Node) -> Result<i32, AllocError> {
        match node {
            Node::I32(number) => Ok(*number),
            _ => unreachable!(),
        }
    }

    ghost proper = { refl };

    ghost has_type = { λ _. refl };

    ghost well_typed = { λ _. tt };

    ghost faithful = { λ x y e. Prim.cc };
}

impl PerValue for i64 {
    ghost use Rattle.std.specs.Prelude.{◌≡◌};
    ghost use Rattle.std.proofs.Common.{refl};
    ghost use Rattle.value_model.specs.Kinds.{eight, signed_kind};
    ghost use Rattle.value_model.specs.Trees.{signed_tree};

    ghost kind = { signed_kind eight };

    ghost tree = { signed_tree eight };

    ghost same = { λ x y. x ≡ y };

    fn type_of(_alloc: Global) -> Result<ValueType, AllocError> {
        Ok(ValueType::I64)
    }

    fn to_node(&self, _alloc: Global) -> Result<Node, AllocError> {
        Ok(Node::I64(*self))
    }

    fn from_node(_alloc: Global, node: &Node) -> Result<i64, AllocError> {
        match node {
            Node::I64(number) => Ok(*number),
            _ => unreachable!(),
        }
    }

    ghost proper = { refl };

    ghost has_type = { λ _. refl };

    ghost well_typed = { λ _. tt };

    ghost faithful = { λ x y e. Prim.cc };
}
