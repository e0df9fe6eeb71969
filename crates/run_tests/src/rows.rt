//! What rows say.

use std::alloc::{AllocError, Global};
use test_rows::{RowError, number, spelled, spelled_bytes};

/// A line that a row gives to the program.
#[derive(Clone, Copy)]
pub(crate) struct Line<'a> {
    /// How often it comes.
    pub(crate) count: u32,
    pub(crate) text: &'a str,
    pub(crate) form: Form,
}

/// How a line is spelled.
#[derive(Clone, Copy, PartialEq, Eq)]
pub(crate) enum Form {
    /// As a text after which a line feed comes.
    Ended,
    /// As a text alone.
    Open,
    /// As the digits of bytes.
    Digits,
}

impl<'a> Line<'a> {
    /// Whether no reply comes to it: it is empty, or begins with `#`.
    pub(crate) fn is_silent(&self) -> bool {
        self.text.is_empty() || self.text.starts_with('#')
    }
}

/// A text under a name.
#[derive(Drop)]
pub(crate) struct Named {
    name: String,
    text: String,
}

impl Named {
    /// The text that a row `$NAME = TEXT` names; none where it is no such row.
    pub(crate) fn of_row(alloc: Global, row: &str) -> Result<Option<Named>, RowError> {
        match row.split_once(" = ") {
            Some((name, text)) if name.starts_with('$') => Ok(Some(Named {
                name: String::from_str(alloc, name)?,
                text: spelled(alloc, text)?,
            })),
            _ => Ok(None),
        }
    }
}

/// What stands before a mark and after it.
pub(crate) fn parted<'a>(text: &'a str, mark: &str) -> (&'a str, &'a str) {
    match text.split_once(mark) {
        Some(parts) => parts,
        None => (text, ""),
    }
}

/// The line of a row that begins with `>`; none of any other row.
pub(crate) fn line_of(row: &str) -> Result<Option<Line<'_>>, RowError> {
    let Some(rest) = row.strip_prefix('>') else {
        return Ok(None);
    };
    let (count, text) = parted(rest, " ");
    let (count, form) = match count {
        "" => (1, Form::Ended),
        "-" => (1, Form::Open),
        "hex" => (1, Form::Digits),
        _ => (number(count)?, Form::Ended),
    };
    Ok(Some(Line { count, text, form }))
}

/// The input that the lines of rows make, with texts in the places of their names.
pub(crate) fn input_of(
    alloc: Global,
    texts: &[Named],
    rows: &[String],
) -> Result<Vec<u8>, RowError> {
    let mut input = Vec::new(alloc);
    for row in rows {
        if let Some(line) = line_of(row.as_str())? {
            push_line(alloc, &mut input, texts, line)?;
        }
    }
    Ok(input)
}

/// Appends a line, as often as it comes.
pub(crate) fn push_line(
    alloc: Global,
    input: &mut Vec<u8>,
    texts: &[Named],
    line: Line<'_>,
) -> Result<(), RowError> {
    let mut text = told(alloc, texts, line.text)?;
    match line.form {
        Form::Digits => {
            let digits = format!(in alloc; "hex {text}")?;
            let bytes = spelled_bytes(alloc, digits.as_str())?;
            input.extend_from_slice(bytes.as_slice())?;
        }
        Form::Open => input.extend_from_slice(text.as_bytes())?,
        Form::Ended => {
            text.push('\n')?;
            push_often(alloc, input, text.as_str(), line.count)?;
        }
    }
    Ok(())
}

/// Appends a text so often, with its number in the place of each `#` where it comes more than once.
fn push_often(
    alloc: Global,
    input: &mut Vec<u8>,
    text: &str,
    count: u32,
) -> Result<(), AllocError> {
    if count == 1 || !text.contains('#') {
        let lines = text.repeat(alloc, count as usize)?;
        return input.extend_from_slice(lines.as_bytes());
    }
    let mut lines = String::new(alloc);
    for place in 0..count {
        push_numbered(&mut lines, text, u64::from(place) + 1)?;
    }
    input.extend_from_slice(lines.as_bytes())
}

/// Appends a text with a number in the place of each `#`.
fn push_numbered(lines: &mut String, text: &str, number: u64) -> Result<(), AllocError> {
    for (place, piece) in text.split('#').enumerate() {
        if place > 0 {
            write!(lines, "{number}")?;
        }
        lines.push_str(piece)?;
    }
    Ok(())
}

/// A line with the text in the place of its last word, where that is a name of one.
fn told(alloc: Global, texts: &[Named], line: &str) -> Result<String, AllocError> {
    if let Some((front, name)) = line.rsplit_once(' ') {
        for named in texts {
            if named.name.as_str() == name {
                return format!(in alloc; "{front} {}", named.text);
            }
        }
    }
    String::from_str(alloc, line)
}
