//! Numbers in the text of a value.

ghost use Rattle.std.specs.Prelude.{◌≡◌, ◌≤◌, IfOk, length};
ghost use Rattle.per_words.specs.Numbers.{begins_value, begins_wrong, ends_number, has_number_type, is_front};
ghost use Rattle.per_words.specs.Numbers.{leading_number, leading_number_length, place_after, place_outside};
ghost use Rattle.per_words.specs.Numbers.{wrong_number};

use crate::meeting::is_value;
use std::alloc::{AllocError, Global};

/// Where a place is in the text of a value.
#[derive(Clone, Copy)]
pub enum ValuePlace {
    /// Where a value may begin.
    Front,
    /// Elsewhere outside quotes.
    Inside,
    /// Between quotes.
    Quoted,
    /// Between quotes after a backslash.
    Escaped,
}

/// How many bytes stand from the first place on where a number of a type is to begin and none does; nothing where there
/// is no such place. What stands between quotes is no number.
pub(crate) fn wrong_number(alloc: Global, text: &[u8]) -> Result<Option<usize>, AllocError>
    ensures { IfOk result (λ left. left ≡ wrong_number ValuePlace.Front text.now) }
{
    let mut place = ValuePlace::Front;
    for (at, byte) in text.iter().enumerate() {
        let (_, rest) = text.split_at(at);
        if is_front(place) && begins_wrong(alloc, rest)? {
            return Ok(Some(rest.len()));
        }
        place = place_after(place, *byte);
    }
    Ok(None)
}

/// Whether the text begins with a type of numbers, and with no number of it.
fn begins_wrong(alloc: Global, text: &[u8]) -> Result<bool, AllocError>
    ensures { IfOk result (λ yes. yes ≡ begins_wrong text.now) }
{
    if !has_number_type(text) {
        return Ok(false);
    }
    let is_value = is_value(alloc, leading_number(text))?;
    Ok(!is_value)
}

/// Whether the text begins with a type of numbers and a colon.
pub(crate) fn has_number_type(text: &[u8]) -> bool
    ensures { result ≡ has_number_type text.now }
{
    text.starts_with(b"u8:")
        || text.starts_with(b"u16:")
        || text.starts_with(b"u32:")
        || text.starts_with(b"u64:")
        || text.starts_with(b"i8:")
        || text.starts_with(b"i16:")
        || text.starts_with(b"i32:")
        || text.starts_with(b"i64:")
}

/// The number with which a text begins that goes on with a value: what stands before the first comma, closing bracket
/// or closing brace.
pub fn leading_number(text: &[u8]) -> &[u8]
    ensures { result.now ≡ leading_number text.now }
{
    let (number, _) = text.split_at(leading_number_length(text));
    number
}

fn leading_number_length(text: &[u8]) -> usize
    ensures value { result ≡ leading_number_length text.now }
    ensures bound { result ≤ length text.now }
{
    for (at, byte) in text.iter().enumerate() {
        if ends_number(*byte) {
            return at;
        }
    }
    text.len()
}

fn ends_number(byte: u8) -> bool
    ensures { result ≡ ends_number byte }
{
    byte == b',' || byte == b']' || byte == b'}'
}

fn is_front(place: ValuePlace) -> bool
    ensures { result ≡ is_front place }
{
    match place {
        ValuePlace::Front => true,
        ValuePlace::Inside | ValuePlace::Quoted | ValuePlace::Escaped => false,
    }
}

/// Where the place after this byte is.
fn place_after(place: ValuePlace, byte: u8) -> ValuePlace
    ensures { result ≡ place_after place byte }
{
    match place {
        ValuePlace::Front | ValuePlace::Inside => place_outside(byte),
        ValuePlace::Quoted => {
            if byte == b'\\' {
                ValuePlace::Escaped
            } else if byte == b'"' {
                ValuePlace::Inside
            } else {
                ValuePlace::Quoted
            }
        }
        ValuePlace::Escaped => ValuePlace::Quoted,
    }
}

/// The same after a byte that stands outside quotes.
fn place_outside(byte: u8) -> ValuePlace
    ensures { result ≡ place_outside byte }
{
    if byte == b'"' {
        ValuePlace::Quoted
    } else if begins_value(byte) {
        ValuePlace::Front
    } else {
        ValuePlace::Inside
    }
}

/// Whether a value may stand after the byte.
fn begins_value(byte: u8) -> bool
    ensures { result ≡ begins_value byte }
{
    byte == b'[' || byte == b'{' || byte == b','
}
