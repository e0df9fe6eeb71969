//! What an element starts with.

ghost use Rattle.std.specs.Prelude.{◌≡◌, IfOk};
ghost use Rattle.std.specs.List.{list_all};
ghost use Rattle.value_model.specs.Views.{kind_of};
ghost use Rattle.manifest.specs.Parts.{encoding_as, file_bytes, initial_in, is_lower_digit, key_bytes, type_in};
ghost use Rattle.serde_json.specs.View.{view};
ghost use Rattle.value_model.specs.Validity.{IsValue};
ghost use Rattle.value_text.specs.Types.{IsType};
ghost use Rattle.manifest.specs.Views.{listed_view};

use crate::parts::{ListedThing, type_of};
use crate::values::text;
use hex::FromHexError;
use per_base::{Bytes, StoreKind};
use serde_json::Value as Json;
use std::alloc::{AllocError, Global};
use value_code::encode;
use value_model::{DecodeError, Value, ValueType};
use value_text::parse_value;

/// The most bytes of a file.
const MAX_FILE_BYTES: usize = 1_048_576;

/// What the element starts with: the encoding of a value, or the content of a file; none where nothing that can be read
/// is said.
#[tactic(auto, unfolding(crate::specs::Parts::initial_in))]
pub(crate) fn initial_of(
    alloc: Global,
    element: ListedThing<'_>,
) -> Result<Option<Bytes>, AllocError>
    ensures { IfOk result (λ bytes. bytes ≡ initial_in (listed_view element.entry)) }
{
    let Some(text) = text(element.value, "initial") else {
        return Ok(None);
    };
    match element.kind {
        StoreKind::Keys => key_bytes(alloc, element.value, text),
        StoreKind::Files => file_bytes(alloc, text),
    }
}

/// The encoding of the value of the key's type that the text spells.
#[tactic(auto, unfolding(crate::specs::Parts::key_bytes))]
fn key_bytes(alloc: Global, key: &Json, text: &str) -> Result<Option<Bytes>, AllocError>
    ensures { IfOk result (λ bytes. bytes ≡ key_bytes (type_in (view key.now)) text.now) }
{
    let Some(value_type) = type_of(alloc, key)? else {
        return Ok(None);
    };
    match parse_value(alloc, text.as_bytes()) {
        Ok(value) => encoding_as(alloc, &value_type, &value),
        Err(DecodeError::NotAValue) => Ok(None),
        Err(DecodeError::OutOfMemory) => Err(AllocError),
    }
}

fn encoding_as(
    alloc: Global,
    value_type: &ValueType,
    value: &Value,
) -> Result<Option<Bytes>, AllocError>
    requires typed { IsType (kind_of value_type.now) }
    requires valid { IsValue value.now }
    ensures { IfOk result (λ bytes. bytes ≡ encoding_as (kind_of value_type.now) value.now) }
{
    if !value.has_type(value_type) {
        return Ok(None);
    }
    let bytes = encode(alloc, value)?;
    Ok(Some(Bytes::new(bytes)))
}

/// The bytes that lower-case hexadecimal digits spell, two for each.
#[tactic(auto, unfolding(crate::specs::Parts::file_bytes))]
fn file_bytes(alloc: Global, text: &str) -> Result<Option<Bytes>, AllocError>
    ensures { IfOk result (λ bytes. bytes ≡ file_bytes text.now) }
{
    if !are_lower_digits(text.as_bytes()) {
        return Ok(None);
    }
    match hex::decode(alloc, text.as_bytes()) {
        Ok(bytes) if bytes.len() <= MAX_FILE_BYTES => Ok(Some(Bytes::new(bytes))),
        Ok(_) => Ok(None),
        Err(FromHexError::OutOfMemory) => Err(AllocError),
        Err(_) => Ok(None),
    }
}

fn are_lower_digits(text: &[u8]) -> bool
    ensures { result ≡ list_all is_lower_digit text.now }
{
    text.iter()
        .all(|byte| matches!(byte, b'0'..=b'9' | b'a'..=b'f'))
}
