//! Looking into a JSON value.

ghost use Rattle.std.specs.Prelude.{◌≡◌, Some, map, option_map, option_and_then, is_some, is_none};
ghost use Rattle.serde_json.specs.Find.{get};
ghost use Rattle.serde_json.specs.View.{view};
ghost use Rattle.std.specs.List.{list_all};
ghost use Rattle.manifest.specs.Values.{is_list_of_objects, is_object, may_be, small_in, text_in, things_in, whole_in};

use serde_json::Value;

/// The greatest number that 32 bits hold.
const MAX_SMALL: u64 = 4_294_967_295;

/// The text of a member.
pub(crate) fn text<'a>(value: &'a Value, word: &str) -> Option<&'a str>
    ensures { option_map (λ t. t.now) result ≡ text_in (get word.now (view value.now)) }
{
    value.get(word).and_then(Value::as_str)
}

/// The whole number of a member.
pub(crate) fn whole_number(value: &Value, word: &str) -> Option<u64>
    ensures { result ≡ whole_in (get word.now (view value.now)) }
{
    value.get(word).and_then(Value::as_u64)
}

/// The whole number of a member, where 32 bits hold it.
pub(crate) fn small_number(value: &Value, word: &str) -> Option<u32>
    ensures { result ≡ small_in (get word.now (view value.now)) }
{
    match whole_number(value, word) {
        Some(number) if number <= MAX_SMALL => Some(number as u32),
        _ => None,
    }
}

/// The things of a member that is a list; none where it is no list.
pub(crate) fn things<'a>(value: &'a Value, word: &str) -> &'a [Value]
    ensures { map view result.now ≡ things_in (get word.now (view value.now)) }
{
    match value.get(word) {
        Some(list) => items_of(list),
        None => &[],
    }
}

fn items_of(value: &Value) -> &[Value]
    ensures { map view result.now ≡ things_in (Some (view value.now)) }
{
    match value.as_array() {
        Some(list) => list.as_slice(),
        None => &[],
    }
}

/// Whether a member is missing or a list of objects.
pub(crate) fn may_list_objects(value: &Value, word: &str) -> bool
    ensures { result ≡ may_be is_list_of_objects (get word.now (view value.now)) }
{
    match value.get(word) {
        Some(list) => is_list_of_objects(list),
        None => true,
    }
}

fn is_list_of_objects(value: &Value) -> bool
    ensures { result ≡ is_list_of_objects (view value.now) }
{
    match value.as_array() {
        Some(list) => are_objects(list.as_slice()),
        None => false,
    }
}

fn are_objects(things: &[Value]) -> bool
    ensures { result ≡ list_all (λ v. is_object (view v)) things.now }
{
    things.iter().all(|thing| thing.is_object())
}
