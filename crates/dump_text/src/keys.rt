//! A key of a dump: its value by the value's text.

ghost use Rattle.std.specs.Prelude.{◌≡◌, ◌≤◌, IfErr, IfOk, IsTrue, Some, is_some};
ghost use Rattle.value_code.specs.Reading.{decoded};
ghost use Rattle.serde_json.specs.Data.{depth};
ghost use Rattle.serde_json.specs.View.{view};
ghost use Rattle.dump_text.specs.Elements.{key_in};
ghost use Rattle.dump_text.specs.Views.{Gives, RefusesToWrite};

use crate::errors::DumpError;
use per_base::Bytes;
use serde_json::Value;
use std::alloc::Global;
use value_code::{decode, encode};
use value_model::DecodeError;
use value_text::{parse_value, print_value, read_value_is_exact};

/// A key with the value that these bytes encode. What is written of it is read back as the same bytes.
pub(crate) fn key_value(alloc: Global, bytes: &[u8]) -> Result<Value, DumpError>
    ensures read { IfOk result (λ key. key_in (view key) ≡ Some bytes.now) }
    ensures nests { IfOk result (λ key. depth (view key) ≤ 1) }
    ensures refused { IfErr result (λ e. RefusesToWrite e (IsTrue (is_some (decoded bytes.now)))) }
{
    read_value_is_exact();
    match decode(alloc, bytes) {
        Ok(value) => Ok(Value::String(print_value(alloc, &value)?)),
        Err(DecodeError::NotAValue) => Err(DumpError::NotADump(String::from_str(
            alloc,
            "a key has no value",
        )?)),
        Err(DecodeError::OutOfMemory) => Err(DumpError::OutOfMemory),
    }
}

/// The encoding of the value of a key, from its text.
#[tactic(auto, unfolding(crate::specs::Elements::key_in))]
pub(crate) fn key_in(alloc: Global, key: &Value) -> Result<Bytes, DumpError>
    ensures { Gives (λ bytes. bytes) result (key_in (view key.now)) }
{
    let Some(text) = key.as_str() else {
        return Err(DumpError::NotADump(String::from_str(alloc, "its value is no string")?));
    };
    match parse_value(alloc, text.as_bytes()) {
        Ok(value) => Ok(Bytes::new(encode(alloc, &value)?)),
        Err(DecodeError::NotAValue) => Err(DumpError::NotADump(String::from_str(
            alloc,
            "its string is the text of no value",
        )?)),
        Err(DecodeError::OutOfMemory) => Err(DumpError::OutOfMemory),
    }
}
