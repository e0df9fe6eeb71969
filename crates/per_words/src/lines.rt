//! The lines of a call that is made alone.

ghost use Rattle.std.specs.Prelude.{◌≡◌, ◌≢◌, ◌++◌, ◌∷◌, [], IfOk, OnOk, IfSome, IsErrOf, None, Some, map, List};
ghost use Rattle.std.specs.Prelude.{ℕ};
ghost use Rattle.std.specs.List.{AllByRecursion};
ghost use Rattle.command_text.specs.declared.errors.LineError.{LineError};
ghost use Rattle.per_words.specs.Words.{Adds, AreFed, IsOneLine, call_lines, durable_lines, line_with};
ghost use Rattle.per_words.specs.Words.{manifest_lines, opening_lines, storage_lines, tabbed};

use crate::kinds::{CallKind, call_kind, call_word, is_of_application, takes_manifest};
use crate::places::{application_digit, place_in};
use crate::pushing::push_call;
use command_text::LineError;
use std::alloc::{AllocError, Global};

/// The lines that make a call, named by its word, to an application or to a storage of one, as in `0:cockpit`: the
/// storage is opened before it where it is to be open, and made durable after it where it changes something. Each line
/// has its line feed.
///
/// # Errors
///
/// `NotALine` exactly where the call cannot be made alone or to this target, or where one of its lines would be none of
/// an event; `OutOfMemory` only where it can be made.
pub fn call_lines(
    alloc: Global,
    call: &[u8],
    target: &[u8],
    arguments: &[&[u8]],
) -> Result<Vec<u8>, LineError>
    // What is given has the lines that `call_lines` says, each one of an event. It is refused where that says none or
    // says one that is none of an event.
    ensures lines { IfOk result (λ text. (lines : List (List ℕ))
        × (call_lines call.now target.now (map (λ word. word.now) arguments.now) ≡ Some lines)
        × AreFed lines text.items) }
    ensures refused { IsErrOf result LineError.NotALine
        → IfSome (call_lines call.now target.now (map (λ word. word.now) arguments.now))
        (λ lines. ¬ (AllByRecursion IsOneLine lines)) }
    ensures memory { IsErrOf result LineError.OutOfMemory
        → call_lines call.now target.now (map (λ word. word.now) arguments.now) ≢ None }
{
    if is_of_application(call) {
        return match application_digit(target) {
            Some(digit) => application_lines(alloc, digit, call, arguments),
            None => Err(LineError::NotALine),
        };
    }
    let kind = call_kind(call).ok_or(LineError::NotALine)?;
    let (digit, storage) = place_in(target).ok_or(LineError::NotALine)?;
    let mut text = Vec::new(alloc);
    push_storage_call(alloc, &mut text, kind, digit, storage, call, arguments)?;
    Ok(text)
}

/// The line that makes a call with this manifest, whose line feeds become tabs.
///
/// # Errors
///
/// `NotALine` exactly where the call takes no manifest or is not made to an application, or where its line would be
/// none of an event; `OutOfMemory` only where it can be made.
pub fn manifest_lines(
    alloc: Global,
    call: &[u8],
    target: &[u8],
    manifest: &[u8],
) -> Result<Vec<u8>, LineError>
    // What is given has the lines that `manifest_lines` says, each one of an event. It is refused where that says none
    // or says one that is none of an event.
    ensures lines { IfOk result (λ text. (lines : List (List ℕ))
        × (manifest_lines call.now target.now manifest.now ≡ Some lines) × AreFed lines text.items) }
    ensures refused { IsErrOf result LineError.NotALine → IfSome (manifest_lines call.now target.now manifest.now)
        (λ lines. ¬ (AllByRecursion IsOneLine lines)) }
    ensures memory { IsErrOf result LineError.OutOfMemory
        → manifest_lines call.now target.now manifest.now ≢ None }
{
    if !takes_manifest(call) {
        return Err(LineError::NotALine);
    }
    match application_digit(target) {
        Some(digit) => tabbed_line(alloc, digit, call, manifest),
        None => Err(LineError::NotALine),
    }
}

/// The line of a call with this manifest, whose line feeds become tabs.
fn tabbed_line(alloc: Global, digit: u8, call: &[u8], manifest: &[u8]) -> Result<Vec<u8>, LineError>
    ensures lines { IfOk result (λ text.
        AreFed (line_with digit (call.now ∷ map tabbed manifest.now ∷ []) ∷ []) text.items) }
    ensures refused { IsErrOf result LineError.NotALine
        → ¬ (AllByRecursion IsOneLine (line_with digit (call.now ∷ map tabbed manifest.now ∷ []) ∷ [])) }
{
    let manifest = with_tabs(alloc, manifest)?;
    application_lines(alloc, digit, call, &[manifest.as_slice()])
}

/// The line of a call of an application alone.
fn application_lines(
    alloc: Global,
    digit: u8,
    call: &[u8],
    arguments: &[&[u8]],
) -> Result<Vec<u8>, LineError>
    ensures lines { IfOk result (λ text.
        AreFed (line_with digit (call.now ∷ map (λ word. word.now) arguments.now) ∷ []) text.items) }
    ensures refused { IsErrOf result LineError.NotALine
        → ¬ (AllByRecursion IsOneLine (line_with digit (call.now ∷ map (λ word. word.now) arguments.now) ∷ [])) }
{
    let mut text = Vec::new(alloc);
    push_call(alloc, &mut text, digit, &[call], arguments)?;
    Ok(text)
}

/// The bytes, with tabs for line feeds.
fn with_tabs(alloc: Global, bytes: &[u8]) -> Result<Vec<u8>, AllocError>
    ensures { IfOk result (λ text. text.items ≡ map tabbed bytes.now) }
{
    let mut text = Vec::new(alloc);
    for byte in bytes {
        text.push(tabbed(*byte))?;
    }
    Ok(text)
}

/// A tab for a line feed.
fn tabbed(byte: u8) -> u8
    ensures { result ≡ tabbed byte }
{
    if byte == b'\n' { b'\t' } else { byte }
}

/// Adds all lines of a call on a storage.
fn push_storage_call(
    alloc: Global,
    text: &mut Vec<u8>,
    kind: CallKind,
    digit: u8,
    storage: &[u8],
    call: &[u8],
    arguments: &[&[u8]],
) -> Result<(), LineError>
    ensures { Adds result text.old.items text.new.items
        (storage_lines kind digit storage.now call.now (map (λ word. word.now) arguments.now)) }
{
    push_opening(alloc, text, kind, digit, storage)?;
    push_call(alloc, text, digit, &[call_word(call), storage], arguments)?;
    push_durable(alloc, text, kind, digit, storage)
}

/// Adds the line that opens the storage, where it is to be open.
pub(crate) fn push_opening(
    alloc: Global,
    text: &mut Vec<u8>,
    kind: CallKind,
    digit: u8,
    storage: &[u8],
) -> Result<(), LineError>
    ensures { Adds result text.old.items text.new.items (opening_lines kind digit storage.now) }
{
    match kind {
        CallKind::Closed => Ok(()),
        CallKind::ReadsKeys | CallKind::ChangesKeys => {
            push_call(alloc, text, digit, &[b"open-kvs", storage], &[])
        }
        CallKind::ReadsFiles | CallKind::ChangesFiles => {
            push_call(alloc, text, digit, &[b"open-files", storage], &[])
        }
    }
}

/// Adds the line that makes durable what the call changed.
pub(crate) fn push_durable(
    alloc: Global,
    text: &mut Vec<u8>,
    kind: CallKind,
    digit: u8,
    storage: &[u8],
) -> Result<(), LineError>
    ensures { Adds result text.old.items text.new.items (durable_lines kind digit storage.now) }
{
    match kind {
        CallKind::ChangesKeys => push_call(alloc, text, digit, &[b"sync", storage], &[]),
        CallKind::ChangesFiles => push_call(alloc, text, digit, &[b"close", storage], &[]),
        CallKind::Closed | CallKind::ReadsKeys | CallKind::ReadsFiles => Ok(()),
    }
}
