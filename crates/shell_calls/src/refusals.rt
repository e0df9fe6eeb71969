//! Which argument of a call is wrong, where that shows in its line.

use crate::accepting::is_digit;
use command_text::LineError;
use per_reasons::{dots_after, text_shown, why_no_call};
use per_words::{call_lines, call_word, takes_manifest};
use std::alloc::{AllocError, Global};

/// Whether a space or a line feed stands within an argument.
pub(crate) fn has_white_space(named: &[&[u8]]) -> bool {
    named
        .iter()
        .any(|word| word.contains(&b' ') || word.contains(&b'\n'))
}

/// Which argument is wrong, where that shows in the line of the call.
pub(crate) fn why_refused(alloc: Global, named: &[&[u8]]) -> Result<Option<String>, AllocError> {
    if has_white_space(named) {
        return Ok(None);
    }
    let [call, target, arguments @ ..] = named else {
        return why_no_words(alloc, named);
    };
    let Some((digit, storage)) = target_in(target) else {
        return why_no_target(alloc, call, target);
    };
    let is_of_application = is_of_application(alloc, call)?;
    if storage.is_some() && is_of_application {
        return why_no_target(alloc, call, target);
    }
    if takes_manifest(call) && arguments.is_empty() {
        return missing(alloc, "a file with a manifest");
    }
    if storage.is_none_or(|name| name.is_empty()) && !is_of_application {
        return missing(alloc, "a storage, as 0:k");
    }
    let line = line_of(alloc, digit, call, storage, arguments)?;
    why_no_call(alloc, line.as_slice())
}

/// What is said where this is missing.
fn missing(alloc: Global, what: &str) -> Result<Option<String>, AllocError> {
    Ok(Some(format!(in alloc; "what is missing is {what}")?))
}

/// The line of a call.
fn line_of(
    alloc: Global,
    digit: u8,
    call: &[u8],
    storage: Option<&[u8]>,
    arguments: &[&[u8]],
) -> Result<Vec<u8>, AllocError> {
    let mut line = Vec::new(alloc);
    line.push(digit)?;
    put_word(&mut line, call_word(call))?;
    if let Some(storage) = storage {
        put_word(&mut line, storage)?;
    }
    for argument in arguments {
        put_word(&mut line, *argument)?;
    }
    Ok(line)
}

/// Adds a word after others.
fn put_word(line: &mut Vec<u8>, word: &[u8]) -> Result<(), AllocError> {
    line.push(b' ')?;
    line.extend_from_slice(word)
}

/// The digit of an application, and the name after a colon where one follows it.
fn target_in(target: &[u8]) -> Option<(u8, Option<&[u8]>)> {
    match target {
        [digit] if is_digit(*digit) => Some((*digit, None)),
        [digit, b':', storage @ ..] if is_digit(*digit) => Some((*digit, Some(storage))),
        _ => None,
    }
}

/// What is said of a call that stands alone.
fn why_no_words(alloc: Global, named: &[&[u8]]) -> Result<Option<String>, AllocError> {
    let [call] = named else {
        return Ok(None);
    };
    missing(alloc, target_needed(alloc, call)?)
}

/// To what the call is made.
fn target_needed(alloc: Global, call: &[u8]) -> Result<&'static str, AllocError> {
    if is_of_application(alloc, call)? {
        Ok("an application, 0 to 7")
    } else {
        Ok("an application, 0 to 7, and a storage, as 0:k")
    }
}

/// What is said of a word to which no call is made.
fn why_no_target(alloc: Global, call: &[u8], target: &[u8]) -> Result<Option<String>, AllocError> {
    let needed = target_needed(alloc, call)?;
    let dots = dots_after(target);
    match text_shown(target) {
        Some("") | None => Ok(None),
        Some(word) => Ok(Some(format!(in alloc; "{word}{dots} is to be {needed}")?)),
    }
}

/// Whether the call is made to an application, and to no storage.
fn is_of_application(alloc: Global, call: &[u8]) -> Result<bool, AllocError> {
    if takes_manifest(call) {
        return Ok(true);
    }
    match call_lines(alloc, call, b"0", &[]) {
        Ok(_) => Ok(true),
        Err(LineError::NotALine) => Ok(false),
        Err(LineError::OutOfMemory) => Err(AllocError),
    }
}
