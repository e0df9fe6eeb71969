//! A text on a screen.

ghost use Rattle.std.specs.Prelude.{◌≡◌, ◌<◌, ◌+◌, ◌++◌, IfOk, OnOk, drop, length, string_bytes};
ghost use Rattle.per_words.specs.Screens.{are_visible, breaks, broken, is_visible, next_column, piece, visible};
ghost use Rattle.per_words.specs.Screens.{visible_char};

use crate::flaws::leading_length;
use std::alloc::{AllocError, Global};

/// The columns of a screen.
pub(crate) const SCREEN: usize = 80;

/// The text for a screen: in place of a space before a word that would pass the last column a row begins, set in by
/// five spaces. A row that is longer than the screen is wide is a single word. A byte counts as a column.
pub fn broken(alloc: Global, text: &[u8]) -> Result<Vec<u8>, AllocError>
    ensures { IfOk result (λ rows. rows.items ≡ broken 0 text.now) }
{
    let mut rows = Vec::new(alloc);
    let mut column = 0;
    for (at, byte) in text.iter().enumerate() {
        let is_break = breaks(column, *byte, text, at);
        push_piece(&mut rows, is_break, *byte)?;
        column = next_column(column, is_break);
    }
    Ok(rows)
}

/// Whether a row ends at this byte, which stands at this place: it is a space, and with it the word after it passes the
/// last column.
fn breaks(column: usize, byte: u8, text: &[u8], at: usize) -> bool
    requires { at < length text.now }
    ensures { result ≡ breaks column byte (drop (at + 1) text.now) }
{
    if byte != b' ' {
        return false;
    }
    if column >= SCREEN {
        return true;
    }
    let (_, rest) = text.split_at(at + 1);
    leading_length(rest) >= SCREEN - column
}

/// Appends the byte, or in its place the beginning of a row.
fn push_piece(rows: &mut Vec<u8>, is_break: bool, byte: u8) -> Result<(), AllocError>
    ensures { OnOk result (rows.new.items ≡ rows.old.items ++ piece is_break byte) }
{
    if is_break {
        rows.extend_from_slice(b"\n     ")?;
        return Ok(());
    }
    rows.push(byte)?;
    Ok(())
}

/// Where what follows begins.
fn next_column(column: usize, is_break: bool) -> usize
    ensures { result ≡ next_column column is_break }
{
    if is_break {
        5
    } else if column < SCREEN {
        column + 1
    } else {
        column
    }
}

/// Whether no character of the text would begin a row or move the cursor.
pub fn are_visible(text: &str) -> bool
    ensures { result ≡ are_visible text.now }
{
    for c in text.chars() {
        if !is_visible(c) {
            return false;
        }
    }
    true
}

/// The text with the number of each character that would do so in its place, as `\u{1b}`.
pub fn visible(alloc: Global, text: &str) -> Result<String, AllocError>
    ensures { IfOk result (λ shown. string_bytes shown ≡ visible text.now) }
{
    let mut shown = String::new(alloc);
    for c in text.chars() {
        push_visible(alloc, &mut shown, c)?;
    }
    Ok(shown)
}

/// Appends the character, or its number.
fn push_visible(alloc: Global, text: &mut String, c: char) -> Result<(), AllocError>
    ensures { OnOk result (string_bytes text.new ≡ string_bytes text.old ++ visible_char c) }
{
    if is_visible(c) {
        return text.push(c);
    }
    let number = format!(in alloc; "\\u{{{:x}}}", c as u32)?;
    text.push_str(number.as_str())
}

/// Whether the character would neither begin a row nor move the cursor.
fn is_visible(c: char) -> bool
    ensures { result ≡ is_visible c }
{
    !(c.is_control() || c == '\u{2028}' || c == '\u{2029}')
}
