//! What lines say.

use command_text::{Line, LineError, parse_line};
use std::alloc::{AllocError, Global};
use test_rows::{RowError, spelled_bytes};

/// What is said of a line.
#[derive(Clone, Copy, PartialEq, Eq)]
enum Telling {
    /// All its parts.
    Parts,
    /// Which kind of line it is.
    Kind,
}

/// All that a line says, in its parts.
pub(crate) fn parts(alloc: Global, row: &str) -> Result<String, RowError> {
    let line = spelled_bytes(alloc, row)?;
    Ok(said(alloc, line.as_slice(), Telling::Parts)?)
}

/// Which kind of line it is.
pub(crate) fn kind(alloc: Global, row: &str) -> Result<String, RowError> {
    let line = spelled_bytes(alloc, row)?;
    Ok(said(alloc, line.as_slice(), Telling::Kind)?)
}

/// The one function that lets a line go, on one way.
fn said(alloc: Global, line: &[u8], telling: Telling) -> Result<String, AllocError> {
    let said = parse_line(alloc, line);
    told(alloc, &said, telling)
}

fn told(
    alloc: Global,
    said: &Result<Line, LineError>,
    telling: Telling,
) -> Result<String, AllocError> {
    match telling {
        Telling::Parts => format!(in alloc; "{said:?}"),
        Telling::Kind => String::from_str(alloc, kind_of(said)),
    }
}

fn kind_of(said: &Result<Line, LineError>) -> &'static str {
    match said {
        Ok(Line::Event(_)) => "an event",
        Ok(Line::Nothing) => "nothing",
        Ok(Line::End) => "the end",
        Err(LineError::NotALine) => "no line",
        Err(LineError::OutOfMemory) => "out of memory",
    }
}
