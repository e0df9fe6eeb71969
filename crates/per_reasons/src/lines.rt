//! Where a text stops being a line, in words.

ghost use Rattle.std.specs.Prelude.{◌≡◌, ◌-◌, IfOk, Some, drop, option_map, string_bytes};
ghost use Rattle.value_text.specs.Readers.{Finds};
ghost use Rattle.per_words.specs.Flaws.{flaw_in};
ghost use Rattle.per_reasons.specs.Reasons.{IsNeededText, IsWordText, SaysNoCall, column_text, ending_text};
ghost use Rattle.per_reasons.specs.Reasons.{needed_text, no_line_text, wrong_part};
ghost use Rattle.per_reasons.specs.Initials.{SaysNoValue};
ghost use Rattle.per_reasons.specs.Numbers.{after_minus, begins_with_digit, bounds_text, leads_with_zero};
ghost use Rattle.per_reasons.specs.Numbers.{needed_digits, needed_number, needed_value, type_length};

use crate::words::{dots_after, shown, word_shown};
use per_words::{Needed, flaw_in, leading_number};
use std::alloc::{AllocError, Global};

/// How many bytes a text has at most that spells a value which is a text without escapes.
const LONGEST_TEXT: usize = 65_538;

/// How many bytes a text may have that spells no value which is too long.
const SHORT_VALUE: usize = 49_152;

/// Why a text is no line, in words: the first of its words that is not what is needed there, by its column, or its end.
/// Nothing where no word is wrong.
///
/// # Errors
///
/// Memory ran out.
pub fn why_no_line(alloc: Global, line: &[u8]) -> Result<Option<String>, AllocError>
    ensures { IfOk result (λ why. option_map string_bytes why ≡ no_line_text line.now) }
{
    match flaw_in(alloc, line)? {
        Some(flaw) => Ok(Some(column_text(
            alloc,
            needed_text(flaw.needed, text_at(line, flaw.column)),
            flaw.column,
            ending_text(line),
        )?)),
        None => Ok(None),
    }
}

/// What stands in a line from this column on.
fn text_at(line: &[u8], column: usize) -> &[u8]
    ensures { result.now ≡ drop (column - 1) line.now }
{
    line.get(column.saturating_sub(1)..).unwrap_or(&[])
}

/// What is needed at this column, or that the line is to end before it, with what is said of its end.
fn column_text(
    alloc: Global,
    needed: Option<&str>,
    column: usize,
    ending: &str,
) -> Result<String, AllocError>
    ensures { IfOk result (λ text. string_bytes text
        ≡ column_text (option_map (λ n. n.now) needed.entry) column ending.now) }
{
    match needed {
        Some(needed) => format!(in alloc; "column {column} is to be {needed}{ending}"),
        None => format!(in alloc; "it is to end before column {column}{ending}"),
    }
}

/// What is said of a line that ends with a carriage return.
fn ending_text(line: &[u8]) -> &'static str
    ensures { result.now ≡ ending_text line.now }
{
    if line.ends_with(b"\r") {
        ", and the line ends with a carriage return"
    } else {
        ""
    }
}

/// Why words from a shell make no call, in words, by the line that they would make. Nothing where no word is wrong.
///
/// # Errors
///
/// Memory ran out.
pub fn why_no_call(alloc: Global, line: &[u8]) -> Result<Option<String>, AllocError>
    ensures { IfOk result (λ why. SaysNoCall line.now (flaw_in line.now) (option_map string_bytes why)) }
{
    match flaw_in(alloc, line)? {
        Some(flaw) => {
            let rest = wrong_part(flaw.needed, text_at(line, flaw.column));
            Ok(Some(word_text(alloc, needed_text(flaw.needed, rest), rest)?))
        }
        None => Ok(None),
    }
}

/// Why a text is that of no value, in words, as [`why_no_call`] says it of a call with this value.
pub(crate) fn why_no_value(alloc: Global, text: &str) -> Result<Option<String>, AllocError>
    ensures { IfOk result (λ why. SaysNoValue (Some text.now) (option_map string_bytes why)) }
{
    let mut line = Vec::from_slice(alloc, b"0 set k a ")?;
    line.extend_from_slice(text.as_bytes())?;
    why_no_call(alloc, line.as_slice())
}

/// The part of a text that is wrong, where this is needed at its beginning: of a value a number alone.
fn wrong_part(needed: Needed, text: &[u8]) -> &[u8]
    ensures { result.now ≡ wrong_part needed text.now }
{
    match needed {
        Needed::TypedNumber => leading_number(text),
        _ => text,
    }
}

/// What is needed in place of the first wrong word, with which the rest begins, or that it is one too many.
fn word_text(alloc: Global, needed: Option<&str>, rest: &[u8]) -> Result<String, AllocError>
    ensures { IfOk result (λ text. IsWordText (option_map (λ n. n.now) needed.entry) rest.now (string_bytes text)) }
{
    match needed {
        Some(needed) => text_of_word(alloc, needed, word_shown(rest), dots_after(rest)),
        None => String::from_str(alloc, "it takes fewer words"),
    }
}

/// What is needed in place of this word.
fn text_of_word(alloc: Global, needed: &str, word: &[u8], dots: &str) -> Result<String, AllocError>
    ensures { IfOk result (λ text. IsNeededText word.now dots.now needed.now (string_bytes text)) }
{
    if word.is_empty() {
        return format!(in alloc; "what is missing is {needed}");
    }
    match shown(word) {
        Some(word) => format!(in alloc; "{word}{dots} is to be {needed}"),
        None => format!(in alloc; "what is wrong is to be {needed}"),
    }
}

/// What a line has at a place, in the place of this text; nothing where it ends there.
fn needed_text(needed: Needed, text: &[u8]) -> Option<&'static str>
    ensures { Finds (λ text. text.now) result (needed_text needed text.now) }
{
    match needed {
        Needed::Application => Some("an application, 0 to 7, or now or end"),
        Needed::CallWord => Some("the word of a call"),
        Needed::Name => Some("a name of 1 to 255 ASCII letters, digits, _, -, . or /"),
        Needed::Handle => Some(needed_digits(text, "the number of a handle, 0 to 4294967295")),
        Needed::Number => Some(needed_digits(text, "a number from 0 to 18446744073709551615")),
        Needed::TypeText => Some("a type, as u8"),
        Needed::ValueText => Some(needed_value(text)),
        Needed::TypedNumber => Some(needed_number(text)),
        Needed::Octets => Some("bytes in two hexadecimal digits each, as 00ff"),
        Needed::Octet => Some("a byte in two hexadecimal digits, as 0a"),
        Needed::Manifest => Some("a manifest"),
        Needed::OpenKind => Some("r, w or rw"),
        Needed::OpenMode => Some(
            "none, or some of begin, end, truncate, append in this order, joined by +",
        ),
        Needed::Origin => Some("begin, current or end"),
        Needed::Offset => Some(needed_digits(
            text,
            "a number from -9223372036854775808 to 9223372036854775807",
        )),
        Needed::End => None,
    }
}

/// How a number is spelled in the place of this text, or else what is needed: one within its bounds is refused for a
/// plus, for leading zeros, or for a minus before zero.
fn needed_digits(text: &[u8], needed: &'static str) -> &'static str
    ensures { result.now ≡ needed_digits text.now needed.now }
{
    if text.starts_with(b"+") {
        "a number without a plus"
    } else if leads_with_zero(after_minus(text)) {
        "a number without leading zeros"
    } else if text.starts_with(b"-0") {
        "a zero without a minus"
    } else {
        needed
    }
}

/// A value in the place of this text, with its bound where the text may spell a longer one.
fn needed_value(text: &[u8]) -> &'static str
    ensures { result.now ≡ needed_value text.now }
{
    if text.starts_with(b"text:") && text.len() > LONGEST_TEXT {
        "a text of at most 65531 bytes"
    } else if text.len() > SHORT_VALUE {
        "a value, as u8:1 or text:\"a\", of at most 65536 bytes as it is encoded"
    } else {
        "a value, as u8:1 or text:\"a\""
    }
}

/// A number in the place of this text: one of the type with which it begins, and spelled as one.
fn needed_number(text: &[u8]) -> &'static str
    ensures { result.now ≡ needed_number text.now }
{
    let digits = text.get(type_length(text)..).unwrap_or(&[]);
    needed_digits(digits, bounds_text(text))
}

/// Whether a zero stands first, before another digit.
fn leads_with_zero(text: &[u8]) -> bool
    ensures { result ≡ leads_with_zero text.now }
{
    match text.split_first() {
        Some((zero, rest)) => *zero == b'0' && begins_with_digit(rest),
        None => false,
    }
}

fn begins_with_digit(text: &[u8]) -> bool
    ensures { result ≡ begins_with_digit text.now }
{
    match text.first() {
        Some(byte) => byte.is_ascii_digit(),
        None => false,
    }
}

/// What stands after a minus, where there is one.
fn after_minus(text: &[u8]) -> &[u8]
    ensures { result.now ≡ after_minus text.now }
{
    if text.starts_with(b"-") {
        text.get(1..).unwrap_or(&[])
    } else {
        text
    }
}

/// How many bytes a type of numbers has, with its colon.
fn type_length(text: &[u8]) -> usize
    ensures { result ≡ type_length text.now }
{
    if text.starts_with(b"u8:") || text.starts_with(b"i8:") {
        3
    } else {
        4
    }
}

/// Which numbers the type has with which this text begins.
fn bounds_text(text: &[u8]) -> &'static str
    ensures { result.now ≡ bounds_text text.now }
{
    if text.starts_with(b"u8:") {
        "one of u8:0 to u8:255"
    } else if text.starts_with(b"u16:") {
        "one of u16:0 to u16:65535"
    } else if text.starts_with(b"u32:") {
        "one of u32:0 to u32:4294967295"
    } else if text.starts_with(b"u64:") {
        "one of u64:0 to u64:18446744073709551615"
    } else if text.starts_with(b"i8:") {
        "one of i8:-128 to i8:127"
    } else if text.starts_with(b"i16:") {
        "one of i16:-32768 to i16:32767"
    } else if text.starts_with(b"i32:") {
        "one of i32:-2147483648 to i32:2147483647"
    } else {
        "one of i64:-9223372036854775808 to i64:9223372036854775807"
    }
}
