//! Reading and writing the codes of types.

ghost use Rattle.std.specs.Prelude.{◌≡◌, ◌++◌, IsTrue, OnOk};
ghost use Rattle.value_code.specs.Reading.{group_kind_by, kind_at, kinds_by, list_kind_by, scalar_of};
ghost use Rattle.value_model.specs.Kinds.{kind_fits, kinds_fit, type_code, type_codes};
ghost use Rattle.value_model.specs.Views.{kind_of, kinds_view};
ghost use Rattle.value_model.specs.Decoding.{Gives};

use crate::codes;
use crate::fields::byte_at;
use crate::payloads::put_byte;
use std::alloc::{AllocError, Global};
use std::rc::Rc;
use value_model::{DecodeError, MAX_MEMBERS, ValueType};

/// The type at the start of the bytes, of at most this depth, and the bytes after it.
#[cycle(type_at)]
#[tactic(auto, unfolding(crate::specs::Reading::kind_at))]
pub(crate) fn type_at(
    alloc: Global,
    depth: u32,
    bytes: &[u8],
) -> Result<(ValueType, &[u8]), DecodeError>
    ensures { Gives (λ x. (kind_of x.0, x.1.now)) result (kind_at depth bytes.now) }
{
    if depth == 0 {
        return Err(DecodeError::NotAValue);
    }
    let (code, rest) = byte_at(bytes)?;
    if code == codes::LIST {
        return list_type_at(alloc, depth - 1, rest);
    }
    if code == codes::FIELDS {
        return group_type_at(alloc, depth - 1, rest);
    }
    let scalar = scalar_type(code)?;
    Ok((scalar, rest))
}

/// After the code of a list.
#[cycle(type_at)]
#[tactic(auto, unfolding(crate::specs::Reading::list_kind_by))]
fn list_type_at(alloc: Global, depth: u32, bytes: &[u8]) -> Result<(ValueType, &[u8]), DecodeError>
    ensures { Gives (λ x. (kind_of x.0, x.1.now)) result
        (list_kind_by (kind_at depth) bytes.now) }
{
    let (item, rest) = type_at(alloc, depth, bytes)?;
    Ok((ValueType::List(Rc::new(alloc, item)?), rest))
}

/// After the code of a group of fields.
#[cycle(type_at)]
#[tactic(auto, unfolding(crate::specs::Reading::group_kind_by))]
fn group_type_at(alloc: Global, depth: u32, bytes: &[u8]) -> Result<(ValueType, &[u8]), DecodeError>
    ensures { Gives (λ x. (kind_of x.0, x.1.now)) result
        (group_kind_by (kind_at depth) bytes.now) }
{
    let (count, rest) = byte_at(bytes)?;
    if count == 0 {
        return Err(DecodeError::NotAValue);
    }
    if count as usize > MAX_MEMBERS {
        return Err(DecodeError::NotAValue);
    }
    let (members, rest) = types_at(alloc, depth, count, rest)?;
    Ok((ValueType::Fields(members), rest))
}

#[cycle(type_at)]
fn types_at(
    alloc: Global,
    depth: u32,
    count: u8,
    bytes: &[u8],
) -> Result<(Vec<ValueType>, &[u8]), DecodeError>
    ensures { Gives (λ x. (kinds_view x.0.items, x.1.now)) result (kinds_by (kind_at depth) count bytes.now) }
{
    let mut types = Vec::new(alloc);
    let mut rest = bytes;
    for _ in 0..count {
        let (value_type, after) = type_at(alloc, depth, rest)?;
        types.push(value_type)?;
        rest = after;
    }
    Ok((types, rest))
}

fn scalar_type(code: u8) -> Result<ValueType, DecodeError>
    ensures { Gives kind_of result (scalar_of code) }
{
    match code {
        codes::BOOL => Ok(ValueType::Bool),
        codes::U8 => Ok(ValueType::U8),
        codes::U16 => Ok(ValueType::U16),
        codes::U32 => Ok(ValueType::U32),
        codes::U64 => Ok(ValueType::U64),
        codes::I8 => Ok(ValueType::I8),
        codes::I16 => Ok(ValueType::I16),
        codes::I32 => Ok(ValueType::I32),
        codes::I64 => Ok(ValueType::I64),
        codes::TEXT => Ok(ValueType::Text),
        codes::BYTES => Ok(ValueType::Bytes),
        _ => Err(DecodeError::NotAValue),
    }
}

/// Writes the code of a type after what is written.
#[cycle(put_type)]
pub(crate) fn put_type(value_type: &ValueType, out: &mut Vec<u8>) -> Result<(), AllocError>
    requires fits { IsTrue (kind_fits (kind_of value_type.now)) }
    ensures { OnOk result (out.new.items ≡ out.old.items ++ type_code (kind_of value_type.now)) }
{
    match value_type {
        ValueType::Bool => put_byte(codes::BOOL, out),
        ValueType::U8 => put_byte(codes::U8, out),
        ValueType::U16 => put_byte(codes::U16, out),
        ValueType::U32 => put_byte(codes::U32, out),
        ValueType::U64 => put_byte(codes::U64, out),
        ValueType::I8 => put_byte(codes::I8, out),
        ValueType::I16 => put_byte(codes::I16, out),
        ValueType::I32 => put_byte(codes::I32, out),
        ValueType::I64 => put_byte(codes::I64, out),
        ValueType::Text => put_byte(codes::TEXT, out),
        ValueType::Bytes => put_byte(codes::BYTES, out),
        ValueType::List(item) => {
            put_byte(codes::LIST, out)?;
            put_type(item, out)
        }
        ValueType::Fields(members) => {
            put_byte(codes::FIELDS, out)?;
            put_byte(members.len() as u8, out)?;
            put_types(members.as_slice(), out)
        }
    }
}

#[cycle(put_type)]
fn put_types(types: &[ValueType], out: &mut Vec<u8>) -> Result<(), AllocError>
    requires fits { IsTrue (kinds_fit (kinds_view types.now)) }
    ensures { OnOk result (out.new.items ≡ out.old.items ++ type_codes (kinds_view types.now)) }
{
    for value_type in types {
        put_type(value_type, out)?;
    }
    Ok(())
}
