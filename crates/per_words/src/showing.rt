//! What a person is shown of a line of a reply.

ghost use Rattle.std.specs.Prelude.{◌≡◌, ◌++◌, ◌∷◌, [], IfOk, map};
ghost use Rattle.value_text.specs.Readers.{Finds, literal_at};
ghost use Rattle.per_words.specs.Shown.{IsWritten, begins, ended, given_in, says_nothing, shown_in, text_after_word};

use crate::kinds::is_word;
use std::alloc::{AllocError, Global};
use value_model::DecodeError;
use value_text::parse_hex;

/// What a line of a reply is to a person.
#[derive(Clone, Copy)]
pub enum Shown {
    /// There is nothing to say.
    Nothing,
    /// A text of one line.
    Text,
    /// Names with a space between them.
    Names,
    /// Bytes in two digits each.
    Octets,
    /// What was found of copies.
    Report,
    /// An error, or a line that is refused.
    Refused,
    /// The error of a disk that failed.
    Failed,
}

/// What a line of a reply, without its line feed, is to a person, and its text.
pub fn shown_in(line: &[u8]) -> (Shown, &[u8])
    ensures { (result.0, result.1.now) ≡ shown_in line.now }
{
    if begins(b"error 4 ", line) {
        (Shown::Failed, line)
    } else if begins(b"error ", line) || begins(b"bad-line ", line) {
        (Shown::Refused, line)
    } else if begins(b"report ", line) {
        (Shown::Report, line)
    } else if says_nothing(line) {
        (Shown::Nothing, line)
    } else {
        given_in(line)
    }
}

/// What is written of a text that is shown so; nothing of a report or an error.
pub fn shown_bytes(alloc: Global, shown: Shown, text: &[u8]) -> Result<Vec<u8>, AllocError>
    ensures { IfOk result (λ out. IsWritten shown text.now out.items) }
{
    match shown {
        Shown::Text => with_feed(alloc, text),
        Shown::Names => ended_names(alloc, text),
        Shown::Octets => octets_in(alloc, text),
        Shown::Nothing | Shown::Report | Shown::Refused | Shown::Failed => Ok(Vec::new(alloc)),
    }
}

/// Whether the line says that something was done, that there are no names or bytes, or a handle that only this run has.
fn says_nothing(line: &[u8]) -> bool
    ensures { result ≡ says_nothing line.now }
{
    is_word(line, b"ok")
        || is_word(line, b"names")
        || is_word(line, b"bytes")
        || begins(b"handle ", line)
}

/// The text of an answer that was given.
fn given_in(line: &[u8]) -> (Shown, &[u8])
    ensures { (result.0, result.1.now) ≡ given_in line.now }
{
    if let Some(names) = after(b"names ", line) {
        return (Shown::Names, names);
    }
    if let Some(digits) = after(b"bytes ", line) {
        return (Shown::Octets, digits);
    }
    (Shown::Text, text_after_word(line).unwrap_or(line))
}

/// What follows the word of an answer that is one text.
fn text_after_word(line: &[u8]) -> Option<&[u8]>
    ensures { Finds (λ rest. rest.now) result (text_after_word line.now) }
{
    if let Some(value) = after(b"value ", line) {
        return Some(value);
    }
    if let Some(number) = after(b"number ", line) {
        return Some(number);
    }
    if let Some(byte) = after(b"byte ", line) {
        return Some(byte);
    }
    if let Some(info) = after(b"info ", line) {
        return Some(info);
    }
    after(b"status ", line)
}

/// Whether the line begins with this word.
pub(crate) fn begins(word: &[u8], line: &[u8]) -> bool
    ensures { result ≡ begins word.now line.now }
{
    after(word, line).is_some()
}

/// What follows the word, where the line begins with it.
pub(crate) fn after<'a>(word: &[u8], line: &'a [u8]) -> Option<&'a [u8]>
    ensures { Finds (λ rest. rest.now) result (literal_at word.now line.now) }
{
    line.strip_prefix(word)
}

fn with_feed(alloc: Global, text: &[u8]) -> Result<Vec<u8>, AllocError>
    ensures { IfOk result (λ out. out.items ≡ text.now ++ 10 ∷ []) }
{
    let mut out = Vec::from_slice(alloc, text)?;
    out.push(b'\n')?;
    Ok(out)
}

/// Each name with a line feed.
fn ended_names(alloc: Global, names: &[u8]) -> Result<Vec<u8>, AllocError>
    ensures { IfOk result (λ out. out.items ≡ map ended names.now ++ 10 ∷ []) }
{
    let mut out = Vec::new(alloc);
    for byte in names {
        out.push(ended(*byte))?;
    }
    out.push(b'\n')?;
    Ok(out)
}

/// A line feed for a space.
fn ended(byte: u8) -> u8
    ensures { result ≡ ended byte }
{
    if byte == b' ' { b'\n' } else { byte }
}

/// The bytes whose digits the text is; none where it is no digits.
fn octets_in(alloc: Global, digits: &[u8]) -> Result<Vec<u8>, AllocError>
    ensures { IfOk result (λ out. IsWritten Shown.Octets digits.now out.items) }
{
    match parse_hex(alloc, digits) {
        Ok(bytes) => Ok(bytes.into_vec()),
        Err(DecodeError::NotAValue) => Ok(Vec::new(alloc)),
        Err(DecodeError::OutOfMemory) => Err(AllocError),
    }
}
