//! Why a text is no dump: what is wrong with the value of a key in it.

ghost use Rattle.std.specs.Prelude.{◌≡◌, IfOk, IfSome, option_map, string_bytes};
ghost use Rattle.serde_json.specs.View.{view};
ghost use Rattle.per_reasons.specs.Dumps.{IsString, SaysOfDump, string_of};

use crate::json::value_of;
use crate::lines::why_no_value;
use serde_json::Value;
use std::alloc::{AllocError, Global};

/// What is said of a dump in which the string of a key spells no value, after the key.
const NO_VALUE: &str = ": its string is the text of no value";

/// What is wrong with the value for which this is said of a text that is no dump, in words; nothing where something
/// else is said of it.
///
/// # Errors
///
/// Memory ran out.
pub fn why_no_dump(alloc: Global, text: &[u8], said: &str) -> Result<Option<String>, AllocError>
    // Which key that is, is tested.
    ensures { IfOk result (λ why. IfSome why (λ words. SaysOfDump text.now (string_bytes words))) }
{
    let Some(place) = said.strip_suffix(NO_VALUE) else {
        return Ok(None);
    };
    let Some(dump) = value_of(alloc, text)? else {
        return Ok(None);
    };
    match string_at(&dump, place) {
        Some(string) => why_no_value(alloc, string),
        None => Ok(None),
    }
}

/// The string of the key that a refusal names.
fn string_at<'a>(dump: &'a Value, place: &str) -> Option<&'a str>
    ensures { IfSome result (λ text. IsString (view dump.now) text.now) }
{
    let mut names = place.split(": ");
    let application = names.next()?.strip_prefix("application ")?;
    let storage = names.next()?.strip_prefix("storage ")?;
    let key = names.next()?.strip_prefix("element ")?;
    string_of(dump, application, storage, key)
}

fn string_of<'a>(dump: &'a Value, application: &str, storage: &str, key: &str) -> Option<&'a str>
    ensures { option_map (λ t. t.now) result ≡ string_of application.now storage.now key.now (view dump.now) }
{
    let storages = dump.get("applications")?.get(application)?.get("storages")?;
    storages.get(storage)?.get("keys")?.get(key)?.as_str()
}
