//! The lines that write the content of a file.

ghost use Rattle.std.specs.Prelude.{◌≡◌, ◌≢◌, ◌++◌, ◌∷◌, [], IfOk, OnOk, OnErr, IfSome, IsErrOf, None, Some, map, List};
ghost use Rattle.std.specs.Prelude.{◌<◌, ◌≤◌, ℕ, length, true};
ghost use Rattle.std.specs.List.{AllByRecursion};
ghost use Rattle.value_text.specs.Texts.{hex_text};
ghost use Rattle.command_text.specs.declared.errors.LineError.{LineError};
ghost use Rattle.per_words.specs.Words.{Adds, AreFed, IsOneLine, FitsLine, closed_line, content_lines, durable_lines};
ghost use Rattle.per_words.specs.Words.{file_lines, line_with, opened_line, opening_lines, piece_line, put_line};
ghost use Rattle.per_words.specs.Words.{writing_lines};
ghost use Rattle.per_words.specs.declared.kinds.CallKind.{CallKind};

use crate::call_text::CallText;
use crate::kinds::CallKind;
use crate::lines::{push_durable, push_opening};
use crate::meeting::is_name;
use crate::places::place_in;
use crate::pushing::push_call;
use command_text::LineError;
use std::alloc::{AllocError, Global};
use value_text::push_hex;

/// The longest piece of a content: a line that writes it is within what a run reads at once.
pub const PIECE_BYTES: usize = 16_000;

/// The lines that make these pieces, joined, the content of the file, which is created where it is not there. A content
/// of one piece is put at once; of others each piece is a line, and they become durable with the last line alone.
///
/// # Errors
///
/// `NotALine` exactly where the target is no storage of an application, or where one of the lines would be none of an
/// event; `OutOfMemory` only where it is one.
pub fn content_lines(
    alloc: Global,
    target: &[u8],
    file: &[u8],
    pieces: Vec<Vec<u8>>,
) -> Result<CallText, LineError>
    // What is given has the lines that `content_lines` says, each one of an event. It is refused where that says none
    // or says one that is none of an event.
    ensures lines { IfOk result (λ text. (lines : List (List ℕ))
        × (content_lines target.now file.now (map (λ piece. piece.items) pieces.items) ≡ Some lines)
        × AreFed lines text) }
    ensures refused { IsErrOf result LineError.NotALine
        → IfSome (content_lines target.now file.now (map (λ piece. piece.items) pieces.items))
        (λ lines. ¬ (AllByRecursion IsOneLine lines)) }
    ensures memory { IsErrOf result LineError.OutOfMemory
        → content_lines target.now file.now (map (λ piece. piece.items) pieces.items) ≢ None }
{
    let (digit, storage) = place_in(target).ok_or(LineError::NotALine)?;
    if are_writable(alloc, digit, storage, pieces.as_slice())? {
        return in_pieces(alloc, digit, storage, file, pieces);
    }
    let mut text = Vec::new(alloc);
    push_file(alloc, &mut text, digit, storage, file, pieces.as_slice())?;
    Ok(CallText::whole(alloc, text))
}

// ---- a content whose lines are made one after another

/// Whether there is more than one piece, and it is plain that each line that writes one is that of an event.
fn are_writable(
    alloc: Global,
    digit: u8,
    storage: &[u8],
    pieces: &[Vec<u8>],
) -> Result<bool, AllocError>
    ensures more { IfOk result (λ yes. yes ≡ true → 1 < length pieces.now) }
    ensures lines { IfOk result (λ yes. yes ≡ true → AllByRecursion IsOneLine
        (map (piece_line digit storage.now) (map (λ piece. piece.items) pieces.now))) }
{
    let are_pieces = are_pieces(digit, pieces);
    if !are_pieces {
        return Ok(false);
    }
    match is_name(alloc, storage) {
        Ok(yes) => Ok(yes),
        Err(error) => Err(error),
    }
}

/// Whether there is more than one piece, each is short, and an application has this digit.
fn are_pieces(digit: u8, pieces: &[Vec<u8>]) -> bool
    ensures more { result ≡ true → 1 < length pieces.now }
    ensures low { result ≡ true → 48 ≤ digit }
    ensures high { result ≡ true → digit < 56 }
    ensures short { result ≡ true → AllByRecursion FitsLine (map (λ piece. piece.items) pieces.now) }
{
    pieces.len() > 1 && digit >= b'0' && digit <= b'7' && are_short(pieces)
}

fn are_short(pieces: &[Vec<u8>]) -> bool
    ensures { result ≡ true → AllByRecursion FitsLine (map (λ piece. piece.items) pieces.now) }
{
    match pieces.split_first() {
        Some((piece, rest)) => is_short(piece.as_slice()) && are_short(rest),
        None => true,
    }
}

fn is_short(piece: &[u8]) -> bool
    ensures { result ≡ true → FitsLine piece.now }
{
    piece.len() <= PIECE_BYTES
}

/// The lines of a content of more than one piece, each of which is that of an event.
fn in_pieces(
    alloc: Global,
    digit: u8,
    storage: &[u8],
    file: &[u8],
    pieces: Vec<Vec<u8>>,
) -> Result<CallText, LineError>
    requires more { 1 < length pieces.items }
    requires lines { AllByRecursion IsOneLine
        (map (piece_line digit storage.now) (map (λ piece. piece.items) pieces.items)) }
    ensures lines { IfOk result (λ text.
        AreFed (file_lines digit storage.now file.now (map (λ piece. piece.items) pieces.items)) text) }
    ensures refused { IsErrOf result LineError.NotALine → ¬ (AllByRecursion IsOneLine
        (file_lines digit storage.now file.now (map (λ piece. piece.items) pieces.items))) }
{
    let mut first = Vec::new(alloc);
    match push_opened(alloc, &mut first, digit, storage, file) {
        Ok(()) => {}
        Err(error) => return Err(error),
    }
    let mut last = Vec::new(alloc);
    match push_closed(alloc, &mut last, digit, storage) {
        Ok(()) => {}
        Err(error) => return Err(error),
    }
    Ok(CallText::in_pieces(alloc, first, digit, storage, pieces, last)?)
}

/// Adds the lines before those that write pieces.
fn push_opened(
    alloc: Global,
    text: &mut Vec<u8>,
    digit: u8,
    storage: &[u8],
    file: &[u8],
) -> Result<(), LineError>
    ensures { Adds result text.old.items text.new.items (opening_lines CallKind.ChangesFiles digit storage.now
        ++ opened_line digit storage.now file.now ∷ []) }
{
    match push_opening(alloc, text, CallKind::ChangesFiles, digit, storage) {
        Ok(()) => push_open_file(alloc, text, digit, storage, file),
        Err(error) => Err(error),
    }
}

/// Adds the line that opens the file and makes it empty.
fn push_open_file(
    alloc: Global,
    text: &mut Vec<u8>,
    digit: u8,
    storage: &[u8],
    file: &[u8],
) -> Result<(), LineError>
    ensures { Adds result text.old.items text.new.items (opened_line digit storage.now file.now ∷ []) }
{
    push_call(
        alloc,
        text,
        digit,
        &[b"open-file", storage, file, b"w", b"truncate"],
        &[],
    )
}

/// Adds the lines after those that write pieces. The first handle of a storage is 1.
fn push_closed(
    alloc: Global,
    text: &mut Vec<u8>,
    digit: u8,
    storage: &[u8],
) -> Result<(), LineError>
    ensures { Adds result text.old.items text.new.items (closed_line digit storage.now ∷ []
        ++ durable_lines CallKind.ChangesFiles digit storage.now) }
{
    match push_call(alloc, text, digit, &[b"close-file", storage, b"1"], &[]) {
        Ok(()) => push_durable(alloc, text, CallKind::ChangesFiles, digit, storage),
        Err(error) => Err(error),
    }
}

// ---- all lines at once

/// Adds all lines of the call.
#[tactic(auto, unfolding(crate::specs::Words::file_lines))]
fn push_file(
    alloc: Global,
    text: &mut Vec<u8>,
    digit: u8,
    storage: &[u8],
    file: &[u8],
    pieces: &[Vec<u8>],
) -> Result<(), LineError>
    ensures { Adds result text.old.items text.new.items
        (file_lines digit storage.now file.now (map (λ piece. piece.items) pieces.now)) }
{
    match push_opening(alloc, text, CallKind::ChangesFiles, digit, storage) {
        Ok(()) => push_durably(alloc, text, digit, storage, file, pieces),
        Err(error) => Err(error),
    }
}

/// Adds the lines after the opening of the storage.
fn push_durably(
    alloc: Global,
    text: &mut Vec<u8>,
    digit: u8,
    storage: &[u8],
    file: &[u8],
    pieces: &[Vec<u8>],
) -> Result<(), LineError>
    ensures { Adds result text.old.items text.new.items
        (writing_lines digit storage.now file.now (map (λ piece. piece.items) pieces.now)
        ++ durable_lines CallKind.ChangesFiles digit storage.now) }
{
    match push_content(alloc, text, digit, storage, file, pieces) {
        Ok(()) => push_durable(alloc, text, CallKind::ChangesFiles, digit, storage),
        Err(error) => Err(error),
    }
}

/// Adds the lines between the opening and the closing of the storage.
fn push_content(
    alloc: Global,
    text: &mut Vec<u8>,
    digit: u8,
    storage: &[u8],
    file: &[u8],
    pieces: &[Vec<u8>],
) -> Result<(), LineError>
    ensures { Adds result text.old.items text.new.items
        (writing_lines digit storage.now file.now (map (λ piece. piece.items) pieces.now)) }
{
    match pieces {
        [] => push_put(alloc, text, digit, storage, file, &[]),
        [piece] => push_put(alloc, text, digit, storage, file, piece.as_slice()),
        _ => match push_open_file(alloc, text, digit, storage, file) {
            Ok(()) => push_and_close(alloc, text, digit, storage, pieces),
            Err(error) => Err(error),
        },
    }
}

/// Adds the one line that a content of one piece takes.
fn push_put(
    alloc: Global,
    text: &mut Vec<u8>,
    digit: u8,
    storage: &[u8],
    file: &[u8],
    piece: &[u8],
) -> Result<(), LineError>
    ensures { Adds result text.old.items text.new.items (put_line digit storage.now file.now piece.now ∷ []) }
{
    push_digits(alloc, text, digit, &[b"put", storage, file], piece)
}

/// Adds the lines that write the pieces by a handle and close it.
fn push_and_close(
    alloc: Global,
    text: &mut Vec<u8>,
    digit: u8,
    storage: &[u8],
    pieces: &[Vec<u8>],
) -> Result<(), LineError>
    ensures { Adds result text.old.items text.new.items
        (map (piece_line digit storage.now) (map (λ piece. piece.items) pieces.now)
        ++ closed_line digit storage.now ∷ []) }
{
    match push_pieces(alloc, text, digit, storage, pieces) {
        Ok(()) => push_call(alloc, text, digit, &[b"close-file", storage, b"1"], &[]),
        Err(error) => Err(error),
    }
}

/// Adds a line for each piece.
fn push_pieces(
    alloc: Global,
    text: &mut Vec<u8>,
    digit: u8,
    storage: &[u8],
    pieces: &[Vec<u8>],
) -> Result<(), LineError>
    ensures { Adds result text.old.items text.new.items
        (map (piece_line digit storage.now) (map (λ piece. piece.items) pieces.now)) }
{
    let Some((piece, rest)) = pieces.split_first() else {
        return Ok(());
    };
    match push_piece(alloc, text, digit, storage, piece.as_slice()) {
        Ok(()) => push_pieces(alloc, text, digit, storage, rest),
        Err(error) => Err(error),
    }
}

/// Adds the line that writes this piece.
fn push_piece(
    alloc: Global,
    text: &mut Vec<u8>,
    digit: u8,
    storage: &[u8],
    piece: &[u8],
) -> Result<(), LineError>
    ensures { Adds result text.old.items text.new.items (piece_line digit storage.now piece.now ∷ []) }
{
    push_digits(alloc, text, digit, &[b"write", storage, b"1"], piece)
}

/// Adds the line that has these words, and bytes in two digits each.
fn push_digits(
    alloc: Global,
    text: &mut Vec<u8>,
    digit: u8,
    words: &[&[u8]],
    bytes: &[u8],
) -> Result<(), LineError>
    ensures { Adds result text.old.items text.new.items
        (line_with digit (map (λ word. word.now) words.now ++ hex_text bytes.now ∷ []) ∷ []) }
{
    let digits = digits_of(alloc, bytes)?;
    push_call(alloc, text, digit, words, &[digits.as_slice()])
}

/// The bytes in two digits each. The room of all is taken at once.
fn digits_of(alloc: Global, bytes: &[u8]) -> Result<Vec<u8>, AllocError>
    ensures { IfOk result (λ digits. digits.items ≡ hex_text bytes.now) }
{
    let mut digits = String::with_capacity(alloc, bytes.len().saturating_mul(2))?;
    push_hex(&mut digits, bytes)?;
    Ok(digits.into_bytes())
}
