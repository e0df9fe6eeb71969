//! The types of values.

ghost use Rattle.std.specs.Prelude.{◌≡◌, ◌↔◌, IfOk, IsTrue};
ghost use Rattle.value_model.specs.Kinds.{kind_fits, kinds_fit};
ghost use Rattle.value_model.specs.Views.{kind_of, kinds_view};

use crate::limits::is_group_size;
use std::alloc::{AllocError, Global};
use std::rc::Rc;

/// The type of a value.
#[derive(Debug, Drop)]
pub enum ValueType {
    Bool,
    U8,
    U16,
    U32,
    U64,
    I8,
    I16,
    I32,
    I64,
    Text,
    Bytes,
    /// A list, with the type of its items, which copies and lists of this type share.
    List(Rc<ValueType>),
    /// A group of fields, with the types of its 1 to 32 members.
    Fields(Vec<ValueType>),
}

impl ValueType {
    /// Whether every group of fields, at whatever depth of the type, has 1 to 32 members.
    #[cycle(fits)]
    pub fn fits(&self) -> bool
        ensures { result ≡ kind_fits (kind_of self.now) }
    {
        match self {
            ValueType::List(item) => item.fits(),
            ValueType::Fields(members) => {
                if !is_group_size(members.len()) {
                    return false;
                }
                all_fit(members.as_slice())
            }
            _ => true,
        }
    }

    /// Whether two types are the same.
    #[cycle(same)]
    pub fn is_same(&self, other: &ValueType) -> bool
        ensures { IsTrue result ↔ (kind_of self.now ≡ kind_of other.now) }
    {
        match self {
            ValueType::Bool => matches!(other, ValueType::Bool),
            ValueType::U8 => matches!(other, ValueType::U8),
            ValueType::U16 => matches!(other, ValueType::U16),
            ValueType::U32 => matches!(other, ValueType::U32),
            ValueType::U64 => matches!(other, ValueType::U64),
            ValueType::I8 => matches!(other, ValueType::I8),
            ValueType::I16 => matches!(other, ValueType::I16),
            ValueType::I32 => matches!(other, ValueType::I32),
            ValueType::I64 => matches!(other, ValueType::I64),
            ValueType::Text => matches!(other, ValueType::Text),
            ValueType::Bytes => matches!(other, ValueType::Bytes),
            ValueType::List(item) => match other {
                ValueType::List(other_item) => item.is_same(other_item),
                _ => false,
            },
            ValueType::Fields(members) => match other {
                ValueType::Fields(others) => all_same(members.as_slice(), others.as_slice()),
                _ => false,
            },
        }
    }

    /// A copy of the type; the error says that memory ran out.
    #[cycle(copies)]
    pub fn copy(&self, alloc: Global) -> Result<ValueType, AllocError>
        ensures { IfOk result (λ copy. kind_of copy ≡ kind_of self.now) }
    {
        Ok(match self {
            ValueType::Bool => ValueType::Bool,
            ValueType::U8 => ValueType::U8,
            ValueType::U16 => ValueType::U16,
            ValueType::U32 => ValueType::U32,
            ValueType::U64 => ValueType::U64,
            ValueType::I8 => ValueType::I8,
            ValueType::I16 => ValueType::I16,
            ValueType::I32 => ValueType::I32,
            ValueType::I64 => ValueType::I64,
            ValueType::Text => ValueType::Text,
            ValueType::Bytes => ValueType::Bytes,
            ValueType::List(item) => ValueType::List(item.clone()?),
            ValueType::Fields(members) => ValueType::Fields(copies(alloc, members.as_slice())?),
        })
    }
}

#[cycle(fits)]
fn all_fit(types: &[ValueType]) -> bool
    ensures { result ≡ kinds_fit (kinds_view types.now) }
{
    for value_type in types {
        if !value_type.fits() {
            return false;
        }
    }
    true
}

#[cycle(same)]
fn all_same(types: &[ValueType], others: &[ValueType]) -> bool
    ensures { IsTrue result ↔ (kinds_view types.now ≡ kinds_view others.now) }
{
    if types.len() != others.len() {
        return false;
    }
    for (i, value_type) in types.iter().enumerate() {
        if !value_type.is_same(&others[i]) {
            return false;
        }
    }
    true
}

#[cycle(copies)]
fn copies(alloc: Global, types: &[ValueType]) -> Result<Vec<ValueType>, AllocError>
    ensures { IfOk result (λ copies. kinds_view copies.items ≡ kinds_view types.now) }
{
    let mut all = Vec::new(alloc);
    for value_type in types {
        all.push(value_type.copy(alloc)?)?;
    }
    Ok(all)
}
