//! The arguments of a call, each the whole of its text.

ghost use Rattle.std.specs.Prelude.{◌≡◌, ◌≢◌, ◌^◌, ◌<◌, Err};
ghost use Rattle.value_text.specs.Parsing.{kind_in, value_in};
ghost use Rattle.value_text.specs.Readers.{Finds};
ghost use Rattle.value_text.specs.Whole.{bytes_in, signed_in, unsigned_in};
ghost use Rattle.command_text.specs.Reading.{ReadsLine, distance_in, element_front, element_in, handle_front};
ghost use Rattle.command_text.specs.Reading.{handle_in};
ghost use Rattle.command_text.specs.Reading.{kind_word_in, manifest_in, mode_end_in, mode_in, mode_of, name_in};
ghost use Rattle.command_text.specs.Reading.{octet_in, opening_in, origin_in};

use crate::asked::AskedType;
use crate::errors::LineError;
use crate::words::{is_word, split};
use bitflags::Flags;
use per_base::{Bytes, Name, OpenKind, OpenMode, Origin, PerError};
use std::alloc::Global;
use value_model::Value;
use value_text::{
    parse_hex, parse_hex_reusing, parse_signed, parse_type, parse_unsigned, parse_value,
};

/// A name.
pub(crate) fn name(alloc: Global, text: &[u8]) -> Result<Name, LineError>
    ensures { ReadsLine (λ n. n) result (name_in text.now) }
{
    let Ok(text) = str::from_utf8(text) else {
        return Err(LineError::NotALine);
    };
    match Name::new(alloc, text) {
        Ok(name) => Ok(name),
        Err(PerError::BadName) => Err(LineError::NotALine),
        Err(_) => Err(LineError::OutOfMemory),
    }
}

/// The number of a handle.
fn handle_number(text: &[u8]) -> Result<u32, LineError>
    ensures { ReadsLine (λ h. h) result (unsigned_in (2 ^ 32) text.now) }
{
    let number = parse_unsigned(u32::MAX as u64, text)?;
    Ok(number as u32)
}

/// A number of 64 bits.
pub(crate) fn number(text: &[u8]) -> Result<u64, LineError>
    ensures read { ReadsLine (λ n. n) result (unsigned_in (2 ^ 64) text.now) }
    ensures memory { result ≢ Err LineError.OutOfMemory }
{
    Ok(parse_unsigned(u64::MAX, text)?)
}

/// The text of a type.
pub(crate) fn kind_of_value(alloc: Global, text: &[u8]) -> Result<AskedType, LineError>
    ensures { ReadsLine (λ t. t) result (kind_in text.now) }
{
    let value_type = parse_type(alloc, text)?;
    Ok(AskedType::new(value_type))
}

/// The text of a value.
pub(crate) fn value(alloc: Global, text: &[u8]) -> Result<Value, LineError>
    ensures { ReadsLine (λ v. v) result (value_in text.now) }
{
    Ok(parse_value(alloc, text)?)
}

/// Bytes in two hexadecimal digits each, in the memory that the room has.
pub(crate) fn bytes(alloc: Global, room: &mut Vec<u8>, text: &[u8]) -> Result<Bytes, LineError>
    ensures { ReadsLine (λ b. b) result (bytes_in text.now) }
{
    Ok(parse_hex_reusing(alloc, room, text)?)
}

/// One byte in two hexadecimal digits.
pub(crate) fn octet(alloc: Global, text: &[u8]) -> Result<u8, LineError>
    ensures { ReadsLine (λ b. b) result (octet_in text.now) }
{
    let bytes = parse_hex(alloc, text)?;
    match bytes.as_slice() {
        [byte] => Ok(*byte),
        _ => Err(LineError::NotALine),
    }
}

/// The text of a manifest: at least one byte, and no line feed.
pub(crate) fn manifest(alloc: Global, text: &[u8]) -> Result<Bytes, LineError>
    ensures { ReadsLine (λ j. j) result (manifest_in text.now) }
{
    if text.is_empty() || text.contains(&b'\n') {
        return Err(LineError::NotALine);
    }
    Ok(Bytes::new(text.to_vec(alloc)?))
}

/// What a file is opened for.
#[tactic(auto, unfolding(crate::specs::Reading::kind_word_in))]
fn open_kind(text: &[u8]) -> Option<OpenKind>
    ensures { result ≡ kind_word_in text.now }
{
    if is_word(text, b"r") {
        return Some(OpenKind::Read);
    }
    if is_word(text, b"w") {
        return Some(OpenKind::Write);
    }
    if is_word(text, b"rw") {
        return Some(OpenKind::ReadWrite);
    }
    None
}

/// From where a position moves.
#[tactic(auto, unfolding(crate::specs::Reading::origin_in))]
fn origin(text: &[u8]) -> Option<Origin>
    ensures { result ≡ origin_in text.now }
{
    if is_word(text, b"begin") {
        return Some(Origin::Beginning);
    }
    if is_word(text, b"current") {
        return Some(Origin::Current);
    }
    if is_word(text, b"end") {
        return Some(Origin::End);
    }
    None
}

/// The bits of the flags of an opening.
#[tactic(auto, unfolding(crate::specs::Reading::mode_in))]
fn mode_in(text: &[u8]) -> Option<u8>
    ensures { Finds (λ bits. mode_of bits) result (mode_in text.now) }
{
    if is_word(text, b"none") {
        return Some(0);
    }
    if is_word(text, b"begin") {
        return Some(1);
    }
    if is_word(text, b"end") {
        return Some(2);
    }
    if is_word(text, b"begin+end") {
        return Some(3);
    }
    if is_word(text, b"truncate") {
        return Some(4);
    }
    if is_word(text, b"begin+truncate") {
        return Some(5);
    }
    if is_word(text, b"end+truncate") {
        return Some(6);
    }
    if is_word(text, b"begin+end+truncate") {
        return Some(7);
    }
    mode_end_in(text)
}

/// The bits of the flags of an opening that appends.
#[tactic(auto, unfolding(crate::specs::Reading::mode_end_in))]
fn mode_end_in(text: &[u8]) -> Option<u8>
    ensures { Finds (λ bits. mode_of bits) result (mode_end_in text.now) }
{
    if is_word(text, b"append") {
        return Some(8);
    }
    if is_word(text, b"begin+append") {
        return Some(9);
    }
    if is_word(text, b"end+append") {
        return Some(10);
    }
    if is_word(text, b"begin+end+append") {
        return Some(11);
    }
    if is_word(text, b"truncate+append") {
        return Some(12);
    }
    if is_word(text, b"begin+truncate+append") {
        return Some(13);
    }
    if is_word(text, b"end+truncate+append") {
        return Some(14);
    }
    if is_word(text, b"begin+end+truncate+append") {
        return Some(15);
    }
    None
}

/// A storage and a name of it.
#[tactic(auto, unfolding(crate::specs::Reading::element_in))]
pub(crate) fn element(alloc: Global, text: &[u8]) -> Result<(Name, Name), LineError>
    ensures { ReadsLine (λ x. (x.0, x.1)) result (element_in text.now) }
{
    let (storage, rest) = split(text).ok_or(LineError::NotALine)?;
    let storage = name(alloc, storage)?;
    Ok((storage, name(alloc, rest)?))
}

/// A storage and a handle of it.
#[tactic(auto, unfolding(crate::specs::Reading::handle_in))]
pub(crate) fn handle(alloc: Global, text: &[u8]) -> Result<(Name, u32), LineError>
    ensures { ReadsLine (λ x. (x.0, x.1)) result (handle_in text.now) }
{
    let (storage, rest) = split(text).ok_or(LineError::NotALine)?;
    let storage = name(alloc, storage)?;
    Ok((storage, handle_number(rest)?))
}

/// A storage, a name of it, and what follows them.
#[tactic(auto, unfolding(crate::specs::Reading::element_front))]
pub(crate) fn element_front(alloc: Global, text: &[u8]) -> Result<(Name, Name, &[u8]), LineError>
    ensures { ReadsLine (λ x. (x.0, x.1, x.2.now)) result (element_front text.now) }
{
    let (storage, rest) = split(text).ok_or(LineError::NotALine)?;
    let storage = name(alloc, storage)?;
    let (element, rest) = split(rest).ok_or(LineError::NotALine)?;
    Ok((storage, name(alloc, element)?, rest))
}

/// A storage, a handle of it, and what follows them.
#[tactic(auto, unfolding(crate::specs::Reading::handle_front))]
pub(crate) fn handle_front(alloc: Global, text: &[u8]) -> Result<(Name, u32, &[u8]), LineError>
    ensures { ReadsLine (λ x. (x.0, x.1, x.2.now)) result (handle_front text.now) }
{
    let (storage, rest) = split(text).ok_or(LineError::NotALine)?;
    let storage = name(alloc, storage)?;
    let (handle, rest) = split(rest).ok_or(LineError::NotALine)?;
    Ok((storage, handle_number(handle)?, rest))
}

/// What a file is opened for, and how.
#[tactic(auto, unfolding(crate::specs::Reading::opening_in))]
pub(crate) fn opening(text: &[u8]) -> Result<(OpenKind, OpenMode), LineError>
    ensures { ReadsLine (λ x. (x.0, x.1)) result (opening_in text.now) }
{
    let (kind, mode) = split(text).ok_or(LineError::NotALine)?;
    let kind = open_kind(kind).ok_or(LineError::NotALine)?;
    let mode = mode_in(mode).ok_or(LineError::NotALine)?;
    Ok((kind, OpenMode::from_bits_retain(mode)))
}

/// From where a position moves, and how far.
#[tactic(auto, unfolding(crate::specs::Reading::distance_in))]
pub(crate) fn distance(text: &[u8]) -> Result<(Origin, i64), LineError>
    ensures { ReadsLine (λ x. (x.0, x.1)) result (distance_in text.now) }
{
    let (from, offset) = split(text).ok_or(LineError::NotALine)?;
    let from = origin(from).ok_or(LineError::NotALine)?;
    Ok((from, parse_signed(i64::MAX as u64, offset)?))
}
