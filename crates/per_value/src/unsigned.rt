//! Numbers of 8, 16, 32 and 64 bits.

use crate::conversion::PerValue;
use std::alloc::{AllocError, Global};
use value_model::{Node, ValueType};

impl PerValue for u8 {
    ghost use Rattle.std.specs.Prelude.{◌≡◌};
    ghost use Rattle.std.proofs.Common.{refl};
    ghost use Rattle.value_model.specs.Kinds.{one, unsigned_kind};
    ghost use Rattle.value_model.specs.Trees.{unsigned_tree};

    ghost kind = { unsigned_kind one };

    ghost tree = { unsigned_tree one };

    ghost same = { λ x y. x ≡ y };

    fn type_of(_alloc: Global) -> Result<ValueType, AllocError> {
        Ok(ValueType::U8)
    }

    fn to_node(&self, _alloc: Global) -> Result<Node, AllocError> {
        Ok(Node::U8(*self))
    }

    fn from_node(_alloc: Global, node: &Node) -> Result<u8, AllocError> {
        match node {
            Node::U8(number) => Ok(*number),
            _ => unreachable!(),
        }
    }

    ghost proper = { refl };

    ghost has_type = { λ _. refl };

    ghost well_typed = { λ _. tt };

    ghost faithful = { λ x y e. Prim.cc };
}

impl PerValue for u16 {
    ghost use Rattle.std.specs.Prelude.{◌≡◌};
    ghost use Rattle.std.proofs.Common.{refl};
    ghost use Rattle.value_model.specs.Kinds.{two, unsigned_kind};
    ghost use Rattle.value_model.specs.Trees.{unsigned_tree};

    ghost kind = { unsigned_kind two };

    ghost tree = { unsigned_tree two };

    ghost same = { λ x y. x ≡ y };

    fn type_of(_alloc: Global) -> Result<ValueType, AllocError> {
        Ok(ValueType::U16)
    }

    fn to_node(&self, _alloc: Global) -> Result<Node, AllocError> {
        Ok(Node::U16(*self))
    }

    fn from_node(_alloc: Global, node: &Node) -> Result<u16, AllocError> {
        match node {
            Node::U16(number) => Ok(*number),
            _ => unreachable!(),
        }
    }

    ghost proper = { refl };

    ghost has_type = { λ _. refl };

    ghost well_typed = { λ _. tt };

    ghost faithful = { λ x y e. Prim.cc };
}

impl PerValue for u32 {
    ghost use Rattle.std.specs.Prelude.{◌≡◌};
    ghost use Rattle.std.proofs.Common.{refl};
    ghost use Rattle.value_model.specs.Kinds.{four, unsigned_kind};
    ghost use Rattle.value_model.specs.Trees.{unsigned_tree};

    ghost kind = { unsigned_kind four };

    ghost tree = { unsigned_tree four };

    ghost same = { λ x y. x ≡ y };

    fn type_of(_alloc: Global) -> Result<ValueType, AllocError> {
        Ok(ValueType::U32)
    }

    fn to_node(&self, _alloc: Global) -> Result<Node, AllocError> {
        Ok(Node::U32(*self))
    }

    fn from_node(_alloc: Global, node: &Node) -> Result<u32, AllocError> {
        match node {
            Node::U32(number) => Ok(*number),
            _ => unreachable!(),
        }
    }

    ghost proper = { refl };

    ghost has_type = { λ _. refl };

    ghost well_typed = { λ _. tt };

    ghost faithful = { λ x y e. Prim.cc };
}

impl PerValue for u64 {
    ghost use Rattle.std.specs.Prelude.{◌≡◌};
    ghost use Rattle.std.proofs.Common.{refl};
    ghost use Rattle.value_model.specs.Kinds.{eight, unsigned_kind};
    ghost use Rattle.value_model.specs.Trees.{unsigned_tree};

    ghost kind = { unsigned_kind eight };

    ghost tree = { unsigned_tree eight };

    ghost same = { λ x y. x ≡ y };

    fn type_of(_alloc: Global) -> Result<ValueType, AllocError> {
        Ok(ValueType::U64)
    }

    fn to_node(&self, _alloc: Global) -> Result<Node, AllocError> {
        Ok(Node::U64(*self))
    }

    fn from_node(_alloc: Global, node: &Node) -> Result<u64, AllocError> {
        match node {
            Node::U64(number) => Ok(*number),
            _ => unreachable!(),
        }
    }

    ghost proper = { refl };

    ghost has_type = { λ _. refl };

    ghost well_typed = { λ _. tt };

    ghost faithful = { λ x y e. Prim.cc };
}
