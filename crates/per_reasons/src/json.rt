//! Looking into a JSON value.

ghost use Rattle.std.specs.Prelude.{◌≡◌, IfOk, Some, map, option_map};
ghost use Rattle.serde_json.specs.Find.{get};
ghost use Rattle.serde_json.specs.View.{view};
ghost use Rattle.manifest.specs.Reading.{value_of};
ghost use Rattle.manifest.specs.Values.{text_in, things_in};

use serde_json::Value;
use std::alloc::{AllocError, Global};

/// The value that a text is, where it is JSON.
#[tactic(auto, unfolding(manifest::specs::Reading::value_of))]
pub(crate) fn value_of(alloc: Global, text: &[u8]) -> Result<Option<Value>, AllocError>
    ensures { IfOk result (λ value. option_map view value ≡ value_of text.now) }
{
    match Value::from_slice(alloc, text) {
        Ok(value) => Ok(Some(value)),
        Err(error) => {
            if error.is_memory() {
                return Err(AllocError);
            }
            Ok(None)
        }
    }
}

/// The text of a member.
pub(crate) fn text<'a>(value: &'a Value, word: &str) -> Option<&'a str>
    ensures { option_map (λ t. t.now) result ≡ text_in (get word.now (view value.now)) }
{
    value.get(word).and_then(Value::as_str)
}

/// The values of a member that is a list; none where it is no list.
pub(crate) fn things<'a>(value: &'a Value, word: &str) -> &'a [Value]
    ensures { map view result.now ≡ things_in (get word.now (view value.now)) }
{
    match value.get(word) {
        Some(list) => items_of(list),
        None => &[],
    }
}

fn items_of(value: &Value) -> &[Value]
    ensures { map view result.now ≡ things_in (Some (view value.now)) }
{
    match value.as_array() {
        Some(list) => list.as_slice(),
        None => &[],
    }
}
