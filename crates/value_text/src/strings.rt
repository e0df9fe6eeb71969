//! Texts in quotes, and bytes in hexadecimal digits.

ghost use Rattle.std.specs.Prelude.{◌≡◌, false, IfSome, Some, length, option_map, ◌<◌};
ghost use Rattle.value_model.specs.Decoding.{Gives};
ghost use Rattle.value_text.specs.Readers.{Finds, hex_value, hex_byte_at, hex_bytes_at, meant_by, quoted_at};
ghost use Rattle.value_text.specs.Parsing.{text_at};

use crate::readers::after;
use per_base::{Bytes, ValueText};
use std::alloc::Global;
use value_model::DecodeError;

const QUOTE: u8 = b'"';

const BACKSLASH: u8 = b'\\';

/// No text holds it as it is, so that a value stays on one line.
const LINE_FEED: u8 = b'\n';

/// The byte that a byte after a backslash denotes.
fn meant_by(byte: u8) -> Result<u8, DecodeError>
    ensures { Gives (λ b. b) result (meant_by byte) }
{
    match byte {
        b'"' => Ok(b'"'),
        b'\\' => Ok(b'\\'),
        b'n' => Ok(b'\n'),
        _ => Err(DecodeError::NotAValue),
    }
}

/// The bytes up to the quote that ends the text, and what follows it.
fn unescaped(alloc: Global, bytes: &[u8]) -> Result<(Vec<u8>, &[u8]), DecodeError>
    ensures { Gives (λ x. (x.0.items, x.1.now)) result (quoted_at false bytes.now) }
{
    let mut text = Vec::new(alloc);
    let mut is_escaped = false;
    for i in 0..bytes.len() {
        let byte = bytes[i];
        if is_escaped {
            text.push(meant_by(byte)?)?;
            is_escaped = false;
            continue;
        }
        if byte == QUOTE {
            return Ok((text, &bytes[i + 1..]));
        }
        if byte == BACKSLASH {
            is_escaped = true;
            continue;
        }
        if byte == LINE_FEED {
            return Err(DecodeError::NotAValue);
        }
        text.push(byte)?;
    }
    Err(DecodeError::NotAValue)
}

/// A text in quotes, and what follows it.
#[tactic(auto, unfolding(crate::specs::Parsing::text_at))]
pub(crate) fn text_at(alloc: Global, bytes: &[u8]) -> Result<(ValueText, &[u8]), DecodeError>
    ensures { Gives (λ x. (x.0, x.1.now)) result (text_at bytes.now) }
{
    let Some(rest) = after(b"\"", bytes) else {
        return Err(DecodeError::NotAValue);
    };
    let (text, rest) = unescaped(alloc, rest)?;
    let Ok(text) = String::from_utf8(text) else {
        return Err(DecodeError::NotAValue);
    };
    Ok((ValueText::new(text), rest))
}

/// The value of a hexadecimal digit.
fn hex_value(digit: u8) -> Option<u8>
    ensures read { result ≡ hex_value digit }
    ensures range { IfSome result (λ n. n < 16) }
{
    match digit {
        b'0'..=b'9' => Some(digit - b'0'),
        b'a'..=b'f' => Some(digit - b'a' + 10),
        _ => None,
    }
}

/// The byte in the two digits at the start, and what follows them.
fn byte_at(bytes: &[u8]) -> Option<(u8, &[u8])>
    ensures { Finds (λ x. (x.0, x.1.now)) result (hex_byte_at bytes.now) }
{
    let (first, rest) = bytes.split_first()?;
    let (second, rest) = rest.split_first()?;
    let high = hex_value(*first)?;
    let low = hex_value(*second)?;
    Some((16 * high + low, rest))
}

/// How many bytes stand at the start in two digits each.
fn count_at(bytes: &[u8]) -> usize
    ensures { option_map (λ x. length x.0) (hex_bytes_at (length bytes.now) bytes.now) ≡ Some result }
{
    let mut rest = bytes;
    for count in 0..bytes.len() {
        let Some((_, others)) = byte_at(rest) else {
            return count;
        };
        rest = others;
    }
    bytes.len()
}

/// As many bytes as stand at the start in two digits each, and what follows them.
pub(crate) fn bytes_at(alloc: Global, bytes: &[u8]) -> Result<(Bytes, &[u8]), DecodeError>
    ensures { Gives (λ x. (x.0, x.1.now)) result (hex_bytes_at (length bytes.now) bytes.now) }
{
    bytes_reusing(Vec::new(alloc), bytes)
}

/// The same, in a room whose items are of no use any more. What the bytes need beyond it is taken at once.
pub(crate) fn bytes_reusing(room: Vec<u8>, bytes: &[u8]) -> Result<(Bytes, &[u8]), DecodeError>
    ensures { Gives (λ x. (x.0, x.1.now)) result (hex_bytes_at (length bytes.now) bytes.now) }
{
    let mut found = room;
    found.clear();
    found.reserve_exact(count_at(bytes))?;
    let mut rest = bytes;
    for _ in 0..bytes.len() {
        let Some((byte, others)) = byte_at(rest) else {
            return Ok((Bytes::new(found), rest));
        };
        found.push(byte)?;
        rest = others;
    }
    Ok((Bytes::new(found), rest))
}
