//! What a prompt shows, and which rows of a help a person asks for.
//!
//! A help is a text in rows. The row of a call begins with two spaces and an application, or with two spaces alone, and
//! then has the call's word; a row that goes on with it is set in by three spaces or more.

ghost use Rattle.std.specs.Prelude.{◌≡◌, IfOk, false, map};
ghost use Rattle.value_text.specs.Readers.{Finds};
ghost use Rattle.per_words.specs.Prompts.{belongs, call_shown, column_after, help_asked, is_line_word, row_word};
ghost use Rattle.per_words.specs.Prompts.{rows_of};

use crate::flaws::{after_space, leading_length, leading_word};
use crate::kinds::is_word;
use crate::needs::needed_after;
use crate::places::application_digit;
use crate::screens::SCREEN;
use crate::showing::{after, begins};
use std::alloc::{AllocError, Global};

/// The application and the word of the call with which a line begins, as a prompt shows them; none where it has no two
/// words, or the first is no application.
pub fn call_shown(line: &[u8]) -> Option<&[u8]>
    ensures { Finds (λ shown. shown.now) result (call_shown line.now) }
{
    if application_digit(leading_word(line)).is_none() {
        return None;
    }
    match after_space(line) {
        Some(call) => {
            let (shown, _) = line.split_at(leading_length(line) + 1 + leading_length(call));
            Some(shown)
        }
        None => None,
    }
}

/// The word of which a line asks for help; an empty one where it asks for all.
pub fn help_asked(line: &[u8]) -> Option<&[u8]>
    ensures { Finds (λ word. word.now) result (help_asked line.now) }
{
    if is_word(line, b"help") {
        return Some(&[]);
    }
    after(b"help ", line)
}

/// Whether a line may begin with the word, or have it after an application.
pub fn is_line_word(word: &[u8]) -> bool
    ensures { result ≡ is_line_word word.now }
{
    is_word(word, b"now") || is_word(word, b"end") || needed_after(word).is_some()
}

/// The word of a row; an empty one where the row goes on with another.
pub fn row_word(row: &[u8]) -> Option<&[u8]>
    ensures { Finds (λ word. word.now) result (row_word row.now) }
{
    if let Some(call) = after(b"  0 ", row) {
        return Some(leading_word(call));
    }
    match after(b"  ", row) {
        Some(rest) => Some(leading_word(rest)),
        None => None,
    }
}

/// The rows of this word, each with those that go on with it.
pub fn rows_of<'a>(
    alloc: Global,
    rows: &[&'a [u8]],
    word: &[u8],
) -> Result<Vec<&'a [u8]>, AllocError>
    ensures { IfOk result (λ found. map (λ row. row.now) found.items
        ≡ rows_of word.now false (map (λ row. row.now) rows.now)) }
{
    let mut found = Vec::new(alloc);
    let mut is_inside = false;
    for row in rows {
        is_inside = belongs(word, is_inside, row);
        if is_inside {
            found.push(*row)?;
        }
    }
    Ok(found)
}

/// Whether a row is one of this word, where the one before it is or is not.
fn belongs(word: &[u8], is_inside: bool, row: &[u8]) -> bool
    ensures { result ≡ belongs word.now is_inside row.now }
{
    if begins(b"   ", row) {
        return is_inside;
    }
    match row_word(row) {
        Some(other) => is_word(other, word),
        None => false,
    }
}

/// The column after the word and a space before it, where a screen has room for them.
pub fn column_after(column: usize, word: &[u8]) -> Option<usize>
    ensures { result ≡ column_after column word.now }
{
    if column > SCREEN || word.len() > SCREEN {
        return None;
    }
    let end = column + 1 + word.len();
    if end > SCREEN { None } else { Some(end) }
}
