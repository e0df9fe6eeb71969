//! The six converters of the program, handed to whoever asks for them.
//!
//! Each keeps the number, in twice the bytes, for every element: `u8` to `u16`, `u16` to `u32`, `u32` to `u64`, and the
//! same of signed numbers. A chain of them leads from each size to each larger one.
#![tactic(auto)]

ghost use Rattle.std.specs.Prelude.{◌≡◌, ◌+◌, IfOk, OnOk, length};
ghost use Rattle.std.specs.Result.{ForOk};
ghost use Rattle.value_model.specs.Kinds.{eight, four, one, signed_kind, two, unsigned_kind};
ghost use Rattle.value_model.specs.Trees.{type_of};
ghost use Rattle.value_model.specs.Views.{kind_of};

use migrate_fns::{Converter, Migration, Migrations};
use std::alloc::{AllocError, Global};
use value_model::{Value, ValueType};

/// Something that is done while the converters are there: a call that takes them, with what else it needs.
pub trait WithConverters {
    /// What it answers.
    type Answer;

    /// Does it with these converters.
    fn with_converters(self, migrations: &Migrations) -> Self::Answer;
}

/// Makes the six converters, and does `what` with them. Running out of memory for them is the one error; then `what` is
/// not done.
pub fn with_converters<T: WithConverters + Drop>(
    alloc: Global,
    what: T,
) -> Result<T::Answer, AllocError> {
    let mut list = Vec::new(alloc);
    add(
        &mut list,
        ValueType::U8,
        ValueType::U16,
        Box::new(alloc, u8_to_u16)?,
    )?;
    add(
        &mut list,
        ValueType::U16,
        ValueType::U32,
        Box::new(alloc, u16_to_u32)?,
    )?;
    add(
        &mut list,
        ValueType::U32,
        ValueType::U64,
        Box::new(alloc, u32_to_u64)?,
    )?;
    add(
        &mut list,
        ValueType::I8,
        ValueType::I16,
        Box::new(alloc, i8_to_i16)?,
    )?;
    add(
        &mut list,
        ValueType::I16,
        ValueType::I32,
        Box::new(alloc, i16_to_i32)?,
    )?;
    add(
        &mut list,
        ValueType::I32,
        ValueType::I64,
        Box::new(alloc, i32_to_i64)?,
    )?;
    Ok(what.with_converters(&Migrations::new(list)))
}

/// Adds a converter for every element.
fn add(
    list: &mut Vec<Migration>,
    from: ValueType,
    to: ValueType,
    convert: Converter,
) -> Result<(), AllocError>
    requires callable { (v : _) → type_of v.now ≡ kind_of from → Converter.pre convert v }
    requires answers { (v : _) (r : _) → type_of v.now ≡ kind_of from → Converter.post convert v r
        → ForOk r (λ w. type_of w ≡ kind_of to) }
    ensures { OnOk result (length list.new.items ≡ length list.old.items + 1) }
{
    list.push(Migration::new(None, from, to, convert))?;
    Ok(())
}

// Functions of this crate, since one of another crate cannot be boxed by its name.

fn u8_to_u16(value: &Value) -> Result<Value, AllocError>
    requires { type_of value.now ≡ unsigned_kind one }
    ensures { IfOk result (λ wider. type_of wider ≡ unsigned_kind two) }
{
    migrate_fns::u8_to_u16(value)
}

fn u16_to_u32(value: &Value) -> Result<Value, AllocError>
    requires { type_of value.now ≡ unsigned_kind two }
    ensures { IfOk result (λ wider. type_of wider ≡ unsigned_kind four) }
{
    migrate_fns::u16_to_u32(value)
}

fn u32_to_u64(value: &Value) -> Result<Value, AllocError>
    requires { type_of value.now ≡ unsigned_kind four }
    ensures { IfOk result (λ wider. type_of wider ≡ unsigned_kind eight) }
{
    migrate_fns::u32_to_u64(value)
}

fn i8_to_i16(value: &Value) -> Result<Value, AllocError>
    requires { type_of value.now ≡ signed_kind one }
    ensures { IfOk result (λ wider. type_of wider ≡ signed_kind two) }
{
    migrate_fns::i8_to_i16(value)
}

fn i16_to_i32(value: &Value) -> Result<Value, AllocError>
    requires { type_of value.now ≡ signed_kind two }
    ensures { IfOk result (λ wider. type_of wider ≡ signed_kind four) }
{
    migrate_fns::i16_to_i32(value)
}

fn i32_to_i64(value: &Value) -> Result<Value, AllocError>
    requires { type_of value.now ≡ signed_kind four }
    ensures { IfOk result (λ wider. type_of wider ≡ signed_kind eight) }
{
    migrate_fns::i32_to_i64(value)
}
