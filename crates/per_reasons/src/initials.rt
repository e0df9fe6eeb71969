//! What is wrong with the initial value by which a manifest breaks the rule of initial contents.

ghost use Rattle.std.specs.Prelude.{◌≡◌, IfOk, Some, is_some, map, option_map, string_bytes};
ghost use Rattle.serde_json.specs.View.{view};
ghost use Rattle.per_base.specs.declared.elements.StoreKind.TheVariants.{Keys};
ghost use Rattle.value_model.specs.Validity.{IsValue};
ghost use Rattle.value_model.specs.Views.{kind_of};
ghost use Rattle.value_text.specs.Types.{IsType};
ghost use Rattle.manifest.specs.Parts.{encoding_as, key_bytes, type_in};
ghost use Rattle.manifest.specs.Rules.{may_start};
ghost use Rattle.per_reasons.specs.Initials.{SaysInitial, first_unread, first_unread_in, unread_text};

use crate::json::{text, things, value_of};
use crate::lines::why_no_value;
use serde_json::Value as Json;
use std::alloc::{AllocError, Global};
use value_model::{DecodeError, Value, ValueType};
use value_text::{parse_type, parse_value};

/// What is wrong with the initial value of the first key of a manifest whose initial value cannot be read, in words;
/// nothing where there is none, or where it is no text, or that of a value of another type.
pub(crate) fn why_initial(alloc: Global, manifest: &[u8]) -> Result<Option<String>, AllocError>
    ensures { IfOk result (λ why. SaysInitial manifest.now (option_map string_bytes why)) }
{
    let Some(manifest) = value_of(alloc, manifest)? else {
        return Ok(None);
    };
    match unread_text(alloc, &manifest)? {
        Some(text) => why_no_value(alloc, text),
        None => Ok(None),
    }
}

/// The text of that initial value.
fn unread_text(alloc: Global, manifest: &Json) -> Result<Option<&str>, AllocError>
    ensures { IfOk result (λ text. option_map (λ t. t.now) text ≡ unread_text (Some (view manifest.now))) }
{
    match first_unread_in(alloc, things(manifest, "keyValueStorages"))? {
        Some(key) => Ok(text(key, "initial")),
        None => Ok(None),
    }
}

/// The first key of these storages, one after another, whose initial value cannot be read.
fn first_unread_in(alloc: Global, storages: &[Json]) -> Result<Option<&Json>, AllocError>
    ensures { IfOk result (λ key. option_map (λ k. view k.now) key ≡ first_unread_in (map view storages.now)) }
{
    for storage in storages {
        if let Some(key) = first_unread(alloc, things(storage, "keyValuePairs"))? {
            return Ok(Some(key));
        }
    }
    Ok(None)
}

/// The first of these keys whose initial value cannot be read.
fn first_unread(alloc: Global, keys: &[Json]) -> Result<Option<&Json>, AllocError>
    ensures { IfOk result (λ key. option_map (λ k. view k.now) key ≡ first_unread (map view keys.now)) }
{
    for key in keys {
        if !may_start(alloc, key)? {
            return Ok(Some(key));
        }
    }
    Ok(None)
}

/// Whether the initial value of a key can be read, where one is said.
#[tactic(auto, unfolding(manifest::specs::Rules::may_start, manifest::specs::Parts::initial_in))]
fn may_start(alloc: Global, key: &Json) -> Result<bool, AllocError>
    ensures { IfOk result (λ read. read ≡ may_start (Keys, view key.now)) }
{
    if key.get("initial").is_none() {
        return Ok(true);
    }
    match text(key, "initial") {
        Some(text) => is_read(alloc, key, text),
        None => Ok(false),
    }
}

/// Whether the text is that of a value of the key's type.
#[tactic(auto, unfolding(manifest::specs::Parts::key_bytes))]
fn is_read(alloc: Global, key: &Json, text: &str) -> Result<bool, AllocError>
    ensures { IfOk result (λ read. read ≡ is_some (key_bytes (type_in (view key.now)) text.now)) }
{
    let Some(value_type) = type_of(alloc, key)? else {
        return Ok(false);
    };
    match parse_value(alloc, text.as_bytes()) {
        Ok(value) => Ok(has_encoding(&value_type, &value)),
        Err(DecodeError::NotAValue) => Ok(false),
        Err(DecodeError::OutOfMemory) => Err(AllocError),
    }
}

/// Whether the value has an encoding as one of this type.
fn has_encoding(value_type: &ValueType, value: &Value) -> bool
    requires typed { IsType (kind_of value_type.now) }
    requires valid { IsValue value.now }
    ensures { result ≡ is_some (encoding_as (kind_of value_type.now) value.now) }
{
    value.has_type(value_type)
}

/// The type of a key; none where it is not said or is no type text.
#[tactic(auto, unfolding(manifest::specs::Parts::type_in))]
fn type_of(alloc: Global, key: &Json) -> Result<Option<ValueType>, AllocError>
    ensures { IfOk result (λ t. option_map kind_of t ≡ type_in (view key.now)) }
{
    let Some(text) = text(key, "type") else {
        return Ok(None);
    };
    match parse_type(alloc, text.as_bytes()) {
        Ok(value_type) => Ok(Some(value_type)),
        Err(DecodeError::NotAValue) => Ok(None),
        Err(DecodeError::OutOfMemory) => Err(AllocError),
    }
}
