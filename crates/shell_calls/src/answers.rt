//! The lines of a call as the input of a run, and its replies as the output.

ghost use Rattle.std.specs.Prelude.{◌≡◌, ◌≢◌, ◌≤◌, [], IfOk, false, length};

use memchr::memchr;
use per_terminal::{NO_DISK, REFUSED_CALL, Screen, say};
use per_words::{CallText, Shown, shown_bytes, shown_in};
use std::alloc::{AllocError, Global};
use std::cell::Cell;
use std::io::{self, Read, Write};

/// What an output is handed first of a reply that has many bytes, which is handed over in pieces.
const OCTETS: &[u8] = b"bytes ";

/// With what the first piece begins of a reply that has a long value, which is handed over in pieces too.
const VALUE: &[u8] = b"value ";

/// The status of the first refusal, or 0.
#[derive(Drop)]
pub struct Refusal {
    status: Cell<u8>,
}

impl Refusal {
    /// Nothing was refused yet.
    pub fn none() -> Refusal {
        Refusal {
            status: Cell::new(0),
        }
    }

    fn is_some(&self) -> bool {
        self.status.get() != 0
    }

    fn note(&self, status: u8) {
        if !self.is_some() {
            self.status.set(status);
        }
    }

    /// The status of the call where the run that made it ended so: that of the first refusal where it ended well.
    pub fn status_after(&self, status: u8) -> u8
        ensures { status ≢ 0 → result ≡ status }
    {
        if status == 0 {
            self.status.get()
        } else {
            status
        }
    }
}

/// The lines of a call as an input: each read gives one, or a part of one, and none after a refusal.
#[derive(Drop)]
pub struct LineByLine<'a> {
    text: CallText,
    /// The part of the text that is given at this time, and how many bytes of it are.
    part: Vec<u8>,
    given: usize,
    in_line: bool,
    refusal: &'a Refusal,
}

impl<'a> LineByLine<'a> {
    /// These lines, of which none is given after this notes a refusal. The buffer has room for each part of them.
    ///
    /// # Errors
    ///
    /// There is no memory for the buffer.
    pub fn new(
        alloc: Global,
        text: CallText,
        refusal: &'a Refusal,
    ) -> Result<LineByLine<'a>, AllocError>
        ensures { IfOk result (λ lines. (lines.text ≡ text) × (lines.part.items ≡ [])) }
    {
        let part = Vec::with_capacity(alloc, text.part_bytes())?;
        Ok(LineByLine {
            text,
            part,
            given: 0,
            in_line: false,
            refusal,
        })
    }
}

impl<'a> Read for LineByLine<'a> {
    fn read(&mut self, out: &mut [u8]) -> io::Result<usize> {
        if !self.in_line && self.refusal.is_some() {
            return Ok(0);
        }
        if self.given >= self.part.len() {
            self.text.give_part(&mut self.part)?;
            self.given = 0;
        }
        let rest = self.part.get(self.given..).unwrap_or(&[]);
        let length = line_length(rest);
        let count = length.min(out.len());
        out[..count].copy_from_slice(&rest[..count]);
        self.given = self.given.saturating_add(count);
        self.in_line = count < length;
        Ok(count)
    }
}

/// How many bytes the first line has, with its line feed.
fn line_length(lines: &[u8]) -> usize
    ensures { result ≤ length lines.now }
{
    match memchr(b'\n', lines) {
        Some(place) => place + 1,
        None => lines.len(),
    }
}

/// The text of a value that is handed over in pieces, as far as the first has it.
fn begun_value(bytes: &[u8]) -> Option<&[u8]> {
    if bytes.ends_with(b"\n") {
        return None;
    }
    bytes.strip_prefix(VALUE)
}

/// Replies as an output, which are shown to a person: each write is one, or a piece of one that has many bytes or a
/// long value.
#[derive(Drop)]
pub struct Answers<'a, R: Print + Screen> {
    rt: &'a R,
    alloc: Global,
    refusal: &'a Refusal,
    /// Whether the digits of such a reply are being written.
    in_octets: bool,
    /// Whether the text of such a value is being written.
    in_value: bool,
}

impl<'a, R: Print + Screen> Answers<'a, R> {
    /// An output that has shown nothing; the first refusal is noted in `refusal`.
    pub fn new(rt: &'a R, alloc: Global, refusal: &'a Refusal) -> Answers<'a, R>
        ensures { result.in_octets ≡ false }
    {
        Answers {
            rt,
            alloc,
            refusal,
            in_octets: false,
            in_value: false,
        }
    }

    fn show(&self, line: &[u8]) -> io::Result<()> {
        let (shown, text) = shown_in(line);
        match shown {
            Shown::Report => self.tell(text),
            Shown::Refused => {
                self.refusal.note(REFUSED_CALL);
                self.tell(text);
            }
            Shown::Failed => {
                self.refusal.note(NO_DISK);
                self.tell(text);
            }
            Shown::Octets | Shown::Nothing | Shown::Text | Shown::Names => {}
        }
        self.write_shown(shown, text)
    }

    /// Writes a text that is shown so.
    fn write_shown(&self, shown: Shown, text: &[u8]) -> io::Result<()> {
        match shown_bytes(self.alloc, shown, text) {
            Ok(out) => io::writer(self.rt).write_all(out.as_slice()),
            Err(_) => Err(io::Error::from(io::ErrorKind::OutOfMemory)),
        }
    }

    /// Says a line on standard error.
    fn tell(&self, text: &[u8]) {
        if let Ok(text) = str::from_utf8(text) {
            let _ = say(self.rt, self.alloc, format!(in self.alloc; "per: {text}"));
        }
    }
}

impl<'a, R: Print + Screen> Write for Answers<'a, R> {
    fn write(&mut self, bytes: &[u8]) -> io::Result<usize> {
        let lines = bytes.strip_suffix(b"\n").unwrap_or(bytes);
        let goes_on = lines.len() == bytes.len();
        if self.in_octets {
            self.write_shown(Shown::Octets, lines)?;
            self.in_octets = goes_on;
        } else if self.in_value {
            io::writer(self.rt).write_all(bytes)?;
            self.in_value = goes_on;
        } else if bytes == OCTETS {
            self.in_octets = true;
        } else if let Some(text) = begun_value(bytes) {
            self.in_value = true;
            io::writer(self.rt).write_all(text)?;
        } else {
            for line in lines.split(|byte| *byte == b'\n') {
                self.show(line)?;
            }
        }
        Ok(bytes.len())
    }

    fn flush(&mut self) -> io::Result<()> {
        Ok(())
    }
}
