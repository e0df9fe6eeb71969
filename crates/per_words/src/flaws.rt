//! Where a text stops being a line.

ghost use Rattle.std.specs.Prelude.{◌≡◌, ◌≤◌, ◌-◌, ◌^◌, IfNone, IfOk, IfSome, false, length, option_map, true};
ghost use Rattle.per_words.specs.Flaws.{after_space, flaw_at, flaw_in, has_space, leading_length, leading_word, unmet};
ghost use Rattle.per_words.specs.Flaws.{unmet_after, unmet_in_call, unmet_in_line, unmet_last, unmet_place};

use crate::kinds::is_word;
use crate::meeting::meets;
use crate::needs::{Needed, needed_after};
use crate::numbers::wrong_number;
use crate::places::application_digit;
use command_text::LINE_BYTES;
use std::alloc::{AllocError, Global};

/// Where a text stops being a line.
#[derive(Clone, Copy)]
pub struct Flaw {
    /// What a line has there.
    pub needed: Needed,
    /// The column of what the text has there, counted in bytes from 1.
    pub column: usize,
}

/// Where a text that is refused as a line stops being one: the first of its words that is not what is needed there, or
/// its end where more is needed.
pub fn flaw_in(alloc: Global, line: &[u8]) -> Result<Option<Flaw>, AllocError>
    ensures { IfOk result (λ flaw. flaw ≡ flaw_in line.now) }
{
    if line.len() > LINE_BYTES {
        let left = line.len() - LINE_BYTES;
        return Ok(Some(flaw_at(line.len(), Needed::End, left)));
    }
    match unmet_in_line(alloc, line)? {
        Some((needed, left)) => Ok(Some(flaw_at(line.len(), needed, left))),
        None => Ok(None),
    }
}

/// The flaw where a text of `size` bytes has `left` bytes from there on.
fn flaw_at(size: usize, needed: Needed, left: usize) -> Flaw
    requires { size ≤ 2 ^ 63 }
    ensures { result ≡ flaw_at size (needed, left) }
{
    Flaw {
        needed,
        column: (size + 1).saturating_sub(left),
    }
}

/// The first place of the line that has something else than is needed there, and how many bytes stand from there on.
fn unmet_in_line(alloc: Global, text: &[u8]) -> Result<Option<(Needed, usize)>, AllocError>
    ensures { IfOk result (λ place. place ≡ unmet_in_line text.now) }
{
    let word = leading_word(text);
    if is_word(word, b"now") {
        return unmet_after(alloc, Some(&[Needed::Number]), text);
    }
    if is_word(word, b"end") {
        return unmet_after(alloc, Some(&[]), text);
    }
    if application_digit(word).is_none() {
        return Ok(Some((Needed::Application, text.len())));
    }
    match after_space(text) {
        Some(call) => unmet_in_call(alloc, call),
        None => Ok(Some((Needed::CallWord, 0))),
    }
}

/// The same of what stands after the application.
fn unmet_in_call(alloc: Global, text: &[u8]) -> Result<Option<(Needed, usize)>, AllocError>
    ensures { IfOk result (λ place. place ≡ unmet_in_call text.now) }
{
    unmet_after(alloc, needed_after(leading_word(text)), text)
}

/// The same where these are needed after the first word, or none where that word is no call.
fn unmet_after(
    alloc: Global,
    needed: Option<&[Needed]>,
    text: &[u8],
) -> Result<Option<(Needed, usize)>, AllocError>
    ensures { IfOk result (λ place. place ≡ unmet_after (option_map (λ n. n.now) needed.entry) text.now) }
{
    let Some(needed) = needed else {
        return Ok(Some((Needed::CallWord, text.len())));
    };
    match (after_space(text), needed.first()) {
        (Some(rest), Some(_)) => unmet(alloc, needed, rest),
        (Some(_), None) => Ok(Some((Needed::End, from_space(text)))),
        (None, Some(first)) => Ok(Some((*first, 0))),
        (None, None) => Ok(None),
    }
}

/// The same where these are needed.
fn unmet(
    alloc: Global,
    needed: &[Needed],
    text: &[u8],
) -> Result<Option<(Needed, usize)>, AllocError>
    ensures { IfOk result (λ place. place ≡ unmet needed.now text.now) }
{
    let Some((first, others)) = needed.split_first() else {
        return Ok(None);
    };
    let Some(next) = others.first() else {
        return unmet_last(alloc, *first, text);
    };
    if !meets(alloc, *first, leading_word(text))? {
        return Ok(Some((*first, text.len())));
    }
    match after_space(text) {
        Some(rest) => unmet(alloc, others, rest),
        None => Ok(Some((*next, 0))),
    }
}

/// The same where this alone is needed, and takes all that is left.
fn unmet_last(
    alloc: Global,
    needed: Needed,
    text: &[u8],
) -> Result<Option<(Needed, usize)>, AllocError>
    ensures { IfOk result (λ place. place ≡ unmet_last needed text.now) }
{
    if meets(alloc, needed, text)? {
        return Ok(None);
    }
    if after_space(text).is_some() && meets(alloc, needed, leading_word(text))? {
        return Ok(Some((Needed::End, from_space(text))));
    }
    Ok(Some(unmet_place(alloc, needed, text)?))
}

/// Where a text that is not what is needed is something else: of a value the first number that is none of its type.
fn unmet_place(alloc: Global, needed: Needed, text: &[u8]) -> Result<(Needed, usize), AllocError>
    ensures { IfOk result (λ place. place ≡ unmet_place needed text.now) }
{
    match needed {
        Needed::ValueText => match wrong_number(alloc, text)? {
            Some(left) => Ok((Needed::TypedNumber, left)),
            None => Ok((needed, text.len())),
        },
        _ => Ok((needed, text.len())),
    }
}

/// How many bytes stand before the first space.
pub(crate) fn leading_length(text: &[u8]) -> usize
    ensures value { result ≡ leading_length text.now }
    ensures bound { result ≤ length text.now }
{
    for (at, byte) in text.iter().enumerate() {
        if *byte == b' ' {
            return at;
        }
    }
    text.len()
}

/// What stands before the first space.
pub(crate) fn leading_word(text: &[u8]) -> &[u8]
    ensures { result.now ≡ leading_word text.now }
{
    let (word, _) = text.split_at(leading_length(text));
    word
}

/// What stands after the first space, where there is one.
pub(crate) fn after_space(text: &[u8]) -> Option<&[u8]>
    ensures found { IfSome result (λ rest. (has_space text.now ≡ true) × (rest.now ≡ after_space text.now)) }
    ensures none { IfNone result (has_space text.now ≡ false) }
{
    let length = leading_length(text);
    if length == text.len() {
        return None;
    }
    let (_, rest) = text.split_at(length + 1);
    Some(rest)
}

/// How many bytes stand from the first space on.
fn from_space(text: &[u8]) -> usize
    ensures { result ≡ length text.now - leading_length text.now }
{
    text.len() - leading_length(text)
}
