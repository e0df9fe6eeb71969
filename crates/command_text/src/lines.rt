//! Lines, whole.

ghost use Rattle.std.specs.Prelude.{◌≡◌, ◌≢◌, IfOk, IsErrOf, None};
ghost use Rattle.command_text.specs.Grammar.{IsLine};
ghost use Rattle.command_text.specs.Memory.{Allocates};
ghost use Rattle.command_text.specs.Reading.{ReadsLine, application_in, event_in, line_in, parts_in};
ghost use Rattle.command_text.specs.declared.lines.Line.{Line};

use crate::arguments::number;
use crate::calls::Event;
use crate::errors::LineError;
use crate::parsing::call;
use crate::words::{is_word, split};
use std::alloc::Global;

/// What a line says.
#[derive(Debug, Drop)]
pub enum Line {
    /// The line is empty or a comment.
    Nothing,
    /// The input ends here.
    End,
    /// The moment is set, or a call is made.
    Event(Event),
}

/// The greatest number of bytes of a line.
pub const LINE_BYTES: usize = 262_144;

/// What a line says, which is given without its line feed: nothing, the end, or an event.
///
/// # Errors
///
/// `NotALine` exactly where the bytes are outside the grammar or more than [`LINE_BYTES`]; `OutOfMemory`.
pub fn parse_line(alloc: Global, line: &[u8]) -> Result<Line, LineError>
    // The text spells the line that is answered; `NotALine` comes only where it spells none.
    ensures line { IfOk result (IsLine line.now) }
    ensures none { IsErrOf result LineError.NotALine → (said : Line) → ¬ IsLine line.now said }

    // Memory runs out only at a line of at most `LINE_BYTES` that has an application, a word and arguments
    ensures memory { IsErrOf result LineError.OutOfMemory → Allocates line.now }
{
    parse_line_reusing(alloc, &mut Vec::new(alloc), line)
}

/// The same as [`parse_line`], where the bytes that a `put` or a `write` has are read into the memory of `room`, whose
/// items are of no use any more. The event holds that memory: given back by [`Event::into_bytes`] it serves the next
/// line. What `room` has after the call is left open.
///
/// # Errors
///
/// `NotALine` exactly where the bytes are outside the grammar or more than [`LINE_BYTES`]; `OutOfMemory`.
pub fn parse_line_reusing(alloc: Global, room: &mut Vec<u8>, line: &[u8]) -> Result<Line, LineError>
    ensures line { IfOk result (IsLine line.now) }
    ensures none { IsErrOf result LineError.NotALine → (said : Line) → ¬ IsLine line.now said }
    ensures memory { IsErrOf result LineError.OutOfMemory → Allocates line.now }
{
    if line.len() > LINE_BYTES {
        return Err(LineError::NotALine);
    }
    any_line(alloc, room, line)
}

/// What the line says, however long it is.
#[tactic(auto, unfolding(crate::specs::Reading::line_in))]
fn any_line(alloc: Global, room: &mut Vec<u8>, line: &[u8]) -> Result<Line, LineError>
    ensures read { ReadsLine (λ l. l) result (line_in line.now) }
    ensures memory { IsErrOf result LineError.OutOfMemory → parts_in line.now ≢ None }
{
    let Some((first, rest)) = line.split_first() else {
        return Ok(Line::Nothing);
    };
    if *first == b'#' {
        if rest.contains(&b'\n') {
            return Err(LineError::NotALine);
        }
        return Ok(Line::Nothing);
    }
    if is_word(line, b"end") {
        return Ok(Line::End);
    }
    Ok(Line::Event(event(alloc, room, line)?))
}

/// The event that the text spells.
#[tactic(auto, unfolding(crate::specs::Reading::event_in, crate::specs::Reading::parts_in))]
fn event(alloc: Global, room: &mut Vec<u8>, text: &[u8]) -> Result<Event, LineError>
    ensures read { ReadsLine (λ e. e) result (event_in text.now) }
    ensures memory { IsErrOf result LineError.OutOfMemory → parts_in text.now ≢ None }
{
    let (first, rest) = split(text).ok_or(LineError::NotALine)?;
    if is_word(first, b"now") {
        return Ok(Event::Now(number(rest)?));
    }
    let application = application(first).ok_or(LineError::NotALine)?;
    Ok(Event::App(application, call(alloc, room, rest)?))
}

/// The application whose digit the text is.
fn application(text: &[u8]) -> Option<u8>
    ensures { result ≡ application_in text.now }
{
    match text {
        [digit @ b'0'..=b'7'] => Some(*digit - b'0'),
        _ => None,
    }
}
