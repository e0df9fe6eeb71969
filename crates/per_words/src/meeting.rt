//! Whether a text is what is needed.

ghost use Rattle.std.specs.Prelude.{◌≡◌, IfOk, is_some};
ghost use Rattle.per_base.specs.Names.{is_name};
ghost use Rattle.value_text.specs.Parsing.{kind_in, value_in};
ghost use Rattle.value_text.specs.Whole.{bytes_in};
ghost use Rattle.command_text.specs.Reading.{appending_modes, kind_words, octet_in, origin_words, other_modes};
ghost use Rattle.per_words.specs.Flaws.{meets, words_of};
ghost use Rattle.per_words.specs.Numbers.{is_typed_number};
ghost use Rattle.per_words.specs.Words.{is_among};

use crate::kinds::is_word;
use crate::needs::{Needed, needed_after};
use crate::numbers::has_number_type;
use crate::places::application_digit;
use per_base::{Name, PerError};
use std::alloc::{AllocError, Global};
use value_model::DecodeError;
use value_text::{parse_hex, parse_signed, parse_type, parse_unsigned, parse_value};

/// Whether the text is what is needed, and all of it.
pub(crate) fn meets(alloc: Global, needed: Needed, text: &[u8]) -> Result<bool, AllocError>
    ensures { IfOk result (λ yes. yes ≡ meets needed text.now) }
{
    match needed {
        Needed::Application => Ok(application_digit(text).is_some()),
        Needed::CallWord => Ok(needed_after(text).is_some()),
        Needed::Name => is_name(alloc, text),
        Needed::Handle => Ok(parse_unsigned(u32::MAX as u64, text).is_ok()),
        Needed::Number => Ok(parse_unsigned(u64::MAX, text).is_ok()),
        Needed::TypeText => is_type(alloc, text),
        Needed::ValueText => is_value(alloc, text),
        Needed::TypedNumber => is_typed_number(alloc, text),
        Needed::Octets => are_octets(alloc, text),
        Needed::Octet => is_octet(alloc, text),
        Needed::Manifest => Ok(!text.is_empty() && !text.contains(&b'\n')),
        Needed::OpenKind => Ok(is_open_kind(text)),
        Needed::OpenMode => Ok(is_open_mode(text) || is_appending_mode(text)),
        Needed::Origin => Ok(is_origin(text)),
        Needed::Offset => Ok(parse_signed(i64::MAX as u64, text).is_ok()),
        Needed::End => Ok(text.is_empty()),
    }
}

pub(crate) fn is_name(alloc: Global, text: &[u8]) -> Result<bool, AllocError>
    ensures { IfOk result (λ yes. yes ≡ is_name text.now) }
{
    let Ok(text) = str::from_utf8(text) else {
        return Ok(false);
    };
    match Name::new(alloc, text) {
        Ok(_) => Ok(true),
        Err(PerError::BadName) => Ok(false),
        Err(_) => Err(AllocError),
    }
}

fn is_type(alloc: Global, text: &[u8]) -> Result<bool, AllocError>
    ensures { IfOk result (λ yes. yes ≡ is_some (kind_in text.now)) }
{
    match parse_type(alloc, text) {
        Ok(_) => Ok(true),
        Err(DecodeError::NotAValue) => Ok(false),
        Err(DecodeError::OutOfMemory) => Err(AllocError),
    }
}

fn is_typed_number(alloc: Global, text: &[u8]) -> Result<bool, AllocError>
    ensures { IfOk result (λ yes. yes ≡ is_typed_number text.now) }
{
    if has_number_type(text) {
        is_value(alloc, text)
    } else {
        Ok(false)
    }
}

pub(crate) fn is_value(alloc: Global, text: &[u8]) -> Result<bool, AllocError>
    ensures { IfOk result (λ yes. yes ≡ is_some (value_in text.now)) }
{
    match parse_value(alloc, text) {
        Ok(_) => Ok(true),
        Err(DecodeError::NotAValue) => Ok(false),
        Err(DecodeError::OutOfMemory) => Err(AllocError),
    }
}

fn are_octets(alloc: Global, text: &[u8]) -> Result<bool, AllocError>
    ensures { IfOk result (λ yes. yes ≡ is_some (bytes_in text.now)) }
{
    match parse_hex(alloc, text) {
        Ok(_) => Ok(true),
        Err(DecodeError::NotAValue) => Ok(false),
        Err(DecodeError::OutOfMemory) => Err(AllocError),
    }
}

fn is_octet(alloc: Global, text: &[u8]) -> Result<bool, AllocError>
    ensures { IfOk result (λ yes. yes ≡ is_some (octet_in text.now)) }
{
    match parse_hex(alloc, text) {
        Ok(bytes) => match bytes.as_slice() {
            [_] => Ok(true),
            _ => Ok(false),
        },
        Err(DecodeError::NotAValue) => Ok(false),
        Err(DecodeError::OutOfMemory) => Err(AllocError),
    }
}

fn is_open_kind(text: &[u8]) -> bool
    ensures { result ≡ is_among (words_of kind_words) text.now }
{
    is_word(text, b"r") || is_word(text, b"w") || is_word(text, b"rw")
}

fn is_open_mode(text: &[u8]) -> bool
    ensures { result ≡ is_among (words_of other_modes) text.now }
{
    is_word(text, b"none")
        || is_word(text, b"begin")
        || is_word(text, b"end")
        || is_word(text, b"begin+end")
        || is_word(text, b"truncate")
        || is_word(text, b"begin+truncate")
        || is_word(text, b"end+truncate")
        || is_word(text, b"begin+end+truncate")
}

fn is_appending_mode(text: &[u8]) -> bool
    ensures { result ≡ is_among (words_of appending_modes) text.now }
{
    is_word(text, b"append")
        || is_word(text, b"begin+append")
        || is_word(text, b"end+append")
        || is_word(text, b"begin+end+append")
        || is_word(text, b"truncate+append")
        || is_word(text, b"begin+truncate+append")
        || is_word(text, b"end+truncate+append")
        || is_word(text, b"begin+end+truncate+append")
}

fn is_origin(text: &[u8]) -> bool
    ensures { result ≡ is_among (words_of origin_words) text.now }
{
    is_word(text, b"begin") || is_word(text, b"current") || is_word(text, b"end")
}
