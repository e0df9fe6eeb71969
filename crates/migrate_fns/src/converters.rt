//! The converters of numbers: each gives the same number in twice the bytes. The one error of
//! each is that memory ran out for the value. Kinds of numbers are told by their bytes: `unsigned_kind two` is `u16`.

ghost use Rattle.std.specs.Prelude.{◌≡◌, IfOk};
ghost use Rattle.migrate_fns.specs.Widened.{widened};
ghost use Rattle.value_model.specs.Kinds.{eight, four, one, signed_kind, two, unsigned_kind};
ghost use Rattle.value_model.specs.Trees.{type_of};
ghost use Rattle.value_model.specs.Views.{tree_of};

use std::alloc::AllocError;
use typed_value::{Node, Value};

/// The number of a `u8`, as a `u16`.
pub fn u8_to_u16(value: &Value) -> Result<Value, AllocError>
    requires { type_of value.now ≡ unsigned_kind one }
    ensures number { IfOk result (λ wider. wider ≡ widened value.now) }
    ensures to { IfOk result (λ wider. type_of wider ≡ unsigned_kind two) }
{
    match value.node() {
        Node::U8(number) => value_of(Node::U16(u16::from(*number))),
        _ => unreachable!(),
    }
}

/// The number of a `u16`, as a `u32`.
pub fn u16_to_u32(value: &Value) -> Result<Value, AllocError>
    requires { type_of value.now ≡ unsigned_kind two }
    ensures number { IfOk result (λ wider. wider ≡ widened value.now) }
    ensures to { IfOk result (λ wider. type_of wider ≡ unsigned_kind four) }
{
    match value.node() {
        Node::U16(number) => value_of(Node::U32(u32::from(*number))),
        _ => unreachable!(),
    }
}

/// The number of a `u32`, as a `u64`.
pub fn u32_to_u64(value: &Value) -> Result<Value, AllocError>
    requires { type_of value.now ≡ unsigned_kind four }
    ensures number { IfOk result (λ wider. wider ≡ widened value.now) }
    ensures to { IfOk result (λ wider. type_of wider ≡ unsigned_kind eight) }
{
    match value.node() {
        Node::U32(number) => value_of(Node::U64(u64::from(*number))),
        _ => unreachable!(),
    }
}

/// The number of an `i8`, as an `i16`.
pub fn i8_to_i16(value: &Value) -> Result<Value, AllocError>
    requires { type_of value.now ≡ signed_kind one }
    ensures number { IfOk result (λ wider. wider ≡ widened value.now) }
    ensures to { IfOk result (λ wider. type_of wider ≡ signed_kind two) }
{
    match value.node() {
        Node::I8(number) => value_of(Node::I16(i16::from(*number))),
        _ => unreachable!(),
    }
}

/// The number of an `i16`, as an `i32`.
pub fn i16_to_i32(value: &Value) -> Result<Value, AllocError>
    requires { type_of value.now ≡ signed_kind two }
    ensures number { IfOk result (λ wider. wider ≡ widened value.now) }
    ensures to { IfOk result (λ wider. type_of wider ≡ signed_kind four) }
{
    match value.node() {
        Node::I16(number) => value_of(Node::I32(i32::from(*number))),
        _ => unreachable!(),
    }
}

/// The number of an `i32`, as an `i64`.
pub fn i32_to_i64(value: &Value) -> Result<Value, AllocError>
    requires { type_of value.now ≡ signed_kind four }
    ensures number { IfOk result (λ wider. wider ≡ widened value.now) }
    ensures to { IfOk result (λ wider. type_of wider ≡ signed_kind eight) }
{
    match value.node() {
        Node::I32(number) => value_of(Node::I64(i64::from(*number))),
        _ => unreachable!(),
    }
}

/// The value with this node.
fn value_of(node: Node) -> Result<Value, AllocError>
    ensures { IfOk result (λ value. value ≡ tree_of node) }
{
    match Value::new(node) {
        Ok(value) => Ok(value),
        Err(_) => Err(AllocError),
    }
}
