//! The members of an object of a dump.

ghost use Rattle.std.specs.Prelude.{◌≡◌, option_map};
ghost use Rattle.serde_json.specs.View.{members_view, view};
ghost use Rattle.dump_text.specs.Elements.{has_members, member_number, member_object, member_text, only_members};
ghost use Rattle.dump_text.specs.Views.{Gives};

use crate::errors::DumpError;
use serde_json::{Map, Value};
use std::alloc::{AllocError, Global};

/// The object that this member is.
pub(crate) fn object_in<'a>(
    alloc: Global,
    value: &'a Value,
    member: &str,
) -> Result<&'a Map<String, Value>, DumpError>
    ensures { Gives (λ object. members_view object.now.entries) result (member_object member.now (view value.now)) }
{
    match member_object(value, member) {
        Some(object) => Ok(object),
        None => Err(DumpError::NotADump(lacks(alloc, member, "an object")?)),
    }
}

/// The text that this member is.
pub(crate) fn text_in<'a>(
    alloc: Global,
    value: &'a Value,
    member: &str,
) -> Result<&'a str, DumpError>
    ensures { Gives (λ text. text.now) result (member_text member.now (view value.now)) }
{
    match member_text(value, member) {
        Some(text) => Ok(text),
        None => Err(DumpError::NotADump(lacks(alloc, member, "a string")?)),
    }
}

/// The number that this member is.
pub(crate) fn number_in(alloc: Global, value: &Value, member: &str) -> Result<u64, DumpError>
    ensures { Gives (λ number. number) result (member_number member.now (view value.now)) }
{
    match member_number(value, member) {
        Some(number) => Ok(number),
        None => Err(DumpError::NotADump(lacks(
            alloc,
            member,
            "a number from 0 to 18446744073709551615",
        )?)),
    }
}

/// Refuses an object that has more members than those that were read from it, of which there are this many.
pub(crate) fn no_others(alloc: Global, value: &Value, count: usize) -> Result<(), DumpError>
    ensures { Gives (λ nothing. nothing) result (only_members count (view value.now)) }
{
    if has_members(value, count) {
        return Ok(());
    }
    Err(DumpError::NotADump(String::from_str(alloc, "it has a member that no dump has there")?))
}

fn member_object<'a>(value: &'a Value, member: &str) -> Option<&'a Map<String, Value>>
    ensures { option_map (λ object. members_view object.now.entries) result
        ≡ member_object member.now (view value.now) }
{
    value.get(member).and_then(Value::as_object)
}

fn member_text<'a>(value: &'a Value, member: &str) -> Option<&'a str>
    ensures { option_map (λ text. text.now) result ≡ member_text member.now (view value.now) }
{
    value.get(member).and_then(Value::as_str)
}

fn member_number(value: &Value, member: &str) -> Option<u64>
    ensures { result ≡ member_number member.now (view value.now) }
{
    value.get(member).and_then(Value::as_u64)
}

/// Whether it is an object of this many members.
fn has_members(value: &Value, count: usize) -> bool
    ensures { result ≡ has_members count (view value.now) }
{
    match value.as_object() {
        Some(object) => object.len() == count,
        None => false,
    }
}

/// What is said of one that has no such member.
fn lacks(alloc: Global, member: &str, what: &str) -> Result<String, AllocError> {
    format!(in alloc; "no member \"{member}\" that is {what}")
}
