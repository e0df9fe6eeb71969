//! Calls, by their word. The words stand in groups, by what follows them.

ghost use Rattle.std.specs.Prelude.{◌≡◌, ◌≢◌, None, IsErrOf};
ghost use Rattle.command_text.specs.Reading.{ReadsLine, bare_call, call_in, detail_call, element_call};
ghost use Rattle.command_text.specs.Reading.{handle_bytes_call};
ghost use Rattle.command_text.specs.Reading.{handle_call, handle_number_call, manifest_call, move_call, split};
ghost use Rattle.command_text.specs.Reading.{storage_call};

use crate::arguments::{
    bytes, distance, element, element_front, handle, handle_front, kind_of_value, manifest, name,
    number, octet, opening, value,
};
use crate::calls::Call;
use crate::errors::LineError;
use crate::words::{is_word, split};
use std::alloc::Global;

/// The call that the text spells. Its bytes are read into the memory that the room has.
#[tactic(auto, unfolding(crate::specs::Reading::call_in))]
pub(crate) fn call(alloc: Global, room: &mut Vec<u8>, text: &[u8]) -> Result<Call, LineError>
    ensures read { ReadsLine (λ c. c) result (call_in text.now) }
    ensures memory { IsErrOf result LineError.OutOfMemory → split text.now ≢ None }
{
    match split(text) {
        Some((word, rest)) => frequent_call(alloc, room, word, rest),
        None => bare_call(text).ok_or(LineError::NotALine),
    }
}

/// A call that is made often, or another.
#[tactic(auto, using(crate::proofs::Frequent::of_get, crate::proofs::Frequent::of_set))]
fn frequent_call(
    alloc: Global,
    room: &mut Vec<u8>,
    word: &[u8],
    text: &[u8],
) -> Result<Call, LineError>
    ensures { ReadsLine (λ c. c) result (manifest_call word.now text.now) }
{
    if is_word(word, b"get") {
        let (storage, name) = element(alloc, text)?;
        return Ok(Call::Get(storage, name));
    }
    if is_word(word, b"set") {
        let (storage, name, rest) = element_front(alloc, text)?;
        return Ok(Call::Set(storage, name, value(alloc, rest)?));
    }
    manifest_call(alloc, room, word, text)
}

/// A call without an argument.
#[tactic(auto, unfolding(crate::specs::Reading::bare_call))]
fn bare_call(word: &[u8]) -> Option<Call>
    ensures { result ≡ bare_call word.now }
{
    if is_word(word, b"status") {
        return Some(Call::Status);
    }
    if is_word(word, b"finish") {
        return Some(Call::Finish);
    }
    if is_word(word, b"rollback") {
        return Some(Call::Rollback);
    }
    if is_word(word, b"wipe") {
        return Some(Call::Wipe);
    }
    if is_word(word, b"update-next") {
        return Some(Call::UpdateNext);
    }
    if is_word(word, b"update-commit") {
        return Some(Call::UpdateCommit);
    }
    if is_word(word, b"update-abort") {
        return Some(Call::UpdateAbort);
    }
    None
}

/// A call with the text of a manifest, or another.
#[tactic(auto, unfolding(crate::specs::Reading::manifest_call))]
fn manifest_call(
    alloc: Global,
    room: &mut Vec<u8>,
    word: &[u8],
    text: &[u8],
) -> Result<Call, LineError>
    ensures { ReadsLine (λ c. c) result (manifest_call word.now text.now) }
{
    if is_word(word, b"install") {
        return Ok(Call::Install(manifest(alloc, text)?));
    }
    if is_word(word, b"update") {
        return Ok(Call::Update(manifest(alloc, text)?));
    }
    if is_word(word, b"update-begin") {
        return Ok(Call::UpdateBegin(manifest(alloc, text)?));
    }
    storage_call(alloc, room, word, text)
}

/// A call with a storage, or with more after it.
#[tactic(auto, unfolding(crate::specs::Reading::storage_call))]
fn storage_call(
    alloc: Global,
    room: &mut Vec<u8>,
    word: &[u8],
    text: &[u8],
) -> Result<Call, LineError>
    ensures { ReadsLine (λ c. c) result (storage_call word.now text.now) }
{
    if is_word(word, b"open-kvs") {
        return Ok(Call::OpenKvs(name(alloc, text)?));
    }
    if is_word(word, b"open-files") {
        return Ok(Call::OpenFiles(name(alloc, text)?));
    }
    if is_word(word, b"close") {
        return Ok(Call::Close(name(alloc, text)?));
    }
    if is_word(word, b"size") {
        return Ok(Call::Size(name(alloc, text)?));
    }
    if is_word(word, b"recover-storage") {
        return Ok(Call::RecoverStorage(name(alloc, text)?));
    }
    if is_word(word, b"reset-storage") {
        return Ok(Call::ResetStorage(name(alloc, text)?));
    }
    if is_word(word, b"keys") {
        return Ok(Call::Keys(name(alloc, text)?));
    }
    if is_word(word, b"remove-all") {
        return Ok(Call::RemoveAll(name(alloc, text)?));
    }
    if is_word(word, b"sync") {
        return Ok(Call::Sync(name(alloc, text)?));
    }
    if is_word(word, b"discard") {
        return Ok(Call::Discard(name(alloc, text)?));
    }
    if is_word(word, b"files") {
        return Ok(Call::Files(name(alloc, text)?));
    }
    element_call(alloc, room, word, text)
}

/// A call with a storage and a name of it, or with more after them, or another.
#[tactic(auto, unfolding(crate::specs::Reading::element_call))]
fn element_call(
    alloc: Global,
    room: &mut Vec<u8>,
    word: &[u8],
    text: &[u8],
) -> Result<Call, LineError>
    ensures { ReadsLine (λ c. c) result (element_call word.now text.now) }
{
    if is_word(word, b"exists") {
        let (storage, name) = element(alloc, text)?;
        return Ok(Call::Exists(storage, name));
    }
    if is_word(word, b"get") {
        let (storage, name) = element(alloc, text)?;
        return Ok(Call::Get(storage, name));
    }
    if is_word(word, b"remove") {
        let (storage, name) = element(alloc, text)?;
        return Ok(Call::Remove(storage, name));
    }
    if is_word(word, b"recover-key") {
        let (storage, name) = element(alloc, text)?;
        return Ok(Call::RecoverKey(storage, name));
    }
    if is_word(word, b"reset-key") {
        let (storage, name) = element(alloc, text)?;
        return Ok(Call::ResetKey(storage, name));
    }
    if is_word(word, b"file-exists") {
        let (storage, name) = element(alloc, text)?;
        return Ok(Call::FileExists(storage, name));
    }
    if is_word(word, b"size-of") {
        let (storage, name) = element(alloc, text)?;
        return Ok(Call::SizeOf(storage, name));
    }
    if is_word(word, b"info") {
        let (storage, name) = element(alloc, text)?;
        return Ok(Call::Info(storage, name));
    }
    if is_word(word, b"delete") {
        let (storage, name) = element(alloc, text)?;
        return Ok(Call::Delete(storage, name));
    }
    if is_word(word, b"recover-file") {
        let (storage, name) = element(alloc, text)?;
        return Ok(Call::RecoverFile(storage, name));
    }
    if is_word(word, b"reset-file") {
        let (storage, name) = element(alloc, text)?;
        return Ok(Call::ResetFile(storage, name));
    }
    if is_word(word, b"cat") {
        let (storage, name) = element(alloc, text)?;
        return Ok(Call::Cat(storage, name));
    }
    detail_call(alloc, room, word, text)
}

/// A call with a storage, a name of it and more, or another.
#[tactic(auto, unfolding(crate::specs::Reading::detail_call))]
fn detail_call(
    alloc: Global,
    room: &mut Vec<u8>,
    word: &[u8],
    text: &[u8],
) -> Result<Call, LineError>
    ensures { ReadsLine (λ c. c) result (detail_call word.now text.now) }
{
    if is_word(word, b"get-as") {
        let (storage, name, rest) = element_front(alloc, text)?;
        return Ok(Call::GetAs(storage, name, kind_of_value(alloc, rest)?));
    }
    if is_word(word, b"set") {
        let (storage, name, rest) = element_front(alloc, text)?;
        return Ok(Call::Set(storage, name, value(alloc, rest)?));
    }
    if is_word(word, b"open-file") {
        let (storage, name, rest) = element_front(alloc, text)?;
        let (kind, mode) = opening(rest)?;
        return Ok(Call::OpenFile(storage, name, kind, mode));
    }
    if is_word(word, b"put") {
        let (storage, name, rest) = element_front(alloc, text)?;
        return Ok(Call::Put(storage, name, bytes(alloc, room, rest)?));
    }
    handle_call(alloc, room, word, text)
}

/// A call with a storage and a handle of it, or with more after them.
#[tactic(auto, unfolding(crate::specs::Reading::handle_call))]
fn handle_call(
    alloc: Global,
    room: &mut Vec<u8>,
    word: &[u8],
    text: &[u8],
) -> Result<Call, LineError>
    ensures { ReadsLine (λ c. c) result (handle_call word.now text.now) }
{
    if is_word(word, b"close-file") {
        let (storage, number) = handle(alloc, text)?;
        return Ok(Call::CloseFile(storage, number));
    }
    if is_word(word, b"peek") {
        let (storage, number) = handle(alloc, text)?;
        return Ok(Call::Peek(storage, number));
    }
    if is_word(word, b"byte") {
        let (storage, number) = handle(alloc, text)?;
        return Ok(Call::Byte(storage, number));
    }
    if is_word(word, b"read-all") {
        let (storage, number) = handle(alloc, text)?;
        return Ok(Call::ReadAll(storage, number));
    }
    if is_word(word, b"handle-size") {
        let (storage, number) = handle(alloc, text)?;
        return Ok(Call::HandleSize(storage, number));
    }
    if is_word(word, b"position") {
        let (storage, number) = handle(alloc, text)?;
        return Ok(Call::Position(storage, number));
    }
    if is_word(word, b"eof") {
        let (storage, number) = handle(alloc, text)?;
        return Ok(Call::Eof(storage, number));
    }
    if is_word(word, b"flush") {
        let (storage, number) = handle(alloc, text)?;
        return Ok(Call::Flush(storage, number));
    }
    handle_number_call(alloc, room, word, text)
}

/// A call with a storage, a handle of it and a number, or another.
#[tactic(auto, unfolding(crate::specs::Reading::handle_number_call))]
fn handle_number_call(
    alloc: Global,
    room: &mut Vec<u8>,
    word: &[u8],
    text: &[u8],
) -> Result<Call, LineError>
    ensures { ReadsLine (λ c. c) result (handle_number_call word.now text.now) }
{
    if is_word(word, b"read") {
        let (storage, handle, rest) = handle_front(alloc, text)?;
        return Ok(Call::Read(storage, handle, number(rest)?));
    }
    if is_word(word, b"set-size") {
        let (storage, handle, rest) = handle_front(alloc, text)?;
        return Ok(Call::SetSize(storage, handle, number(rest)?));
    }
    if is_word(word, b"seek") {
        let (storage, handle, rest) = handle_front(alloc, text)?;
        return Ok(Call::Seek(storage, handle, number(rest)?));
    }
    handle_bytes_call(alloc, room, word, text)
}

/// A call with a storage, a handle of it and bytes, or another.
#[tactic(auto, unfolding(crate::specs::Reading::handle_bytes_call))]
fn handle_bytes_call(
    alloc: Global,
    room: &mut Vec<u8>,
    word: &[u8],
    text: &[u8],
) -> Result<Call, LineError>
    ensures { ReadsLine (λ c. c) result (handle_bytes_call word.now text.now) }
{
    if is_word(word, b"line") {
        let (storage, handle, rest) = handle_front(alloc, text)?;
        return Ok(Call::Line(storage, handle, octet(alloc, rest)?));
    }
    if is_word(word, b"write") {
        let (storage, handle, rest) = handle_front(alloc, text)?;
        return Ok(Call::Write(storage, handle, bytes(alloc, room, rest)?));
    }
    move_call(alloc, word, text)
}

/// The call that moves a position.
#[tactic(auto, unfolding(crate::specs::Reading::move_call))]
fn move_call(alloc: Global, word: &[u8], text: &[u8]) -> Result<Call, LineError>
    ensures { ReadsLine (λ c. c) result (move_call word.now text.now) }
{
    if is_word(word, b"move") {
        let (storage, handle, rest) = handle_front(alloc, text)?;
        let (origin, offset) = distance(rest)?;
        return Ok(Call::Move(storage, handle, origin, offset));
    }
    Err(LineError::NotALine)
}
