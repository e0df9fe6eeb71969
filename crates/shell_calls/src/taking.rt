//! What a call takes, from a file or from standard input.

ghost use Rattle.std.specs.Prelude.{◌≡◌, IfOk, IfSome};
ghost use Rattle.shell_calls.specs.Accepted.{lines_of};

use crate::accepting::Accepted;
use crate::unmade::Unmade;
use command_text::LineError;
use per_terminal::{Screen, say_awaited};
use per_words::{CallText, PIECE_BYTES, content_lines, manifest_lines};
use std::alloc::{AllocError, Global};
use std::fs::{self, File};
use std::io::{self, Input, Read};
use std::rt::Files;

/// One byte more than a file may have: of a longer input no more is read.
const CONTENT_BYTES: u64 = 1_048_577;

/// Pieces into which that many bytes are cut.
const PIECES: usize = CONTENT_BYTES as usize / PIECE_BYTES + 1;

/// How many bytes a manifest has at most.
const MANIFEST_BYTES: usize = 65_536;

/// What is said to a person who is to type a content, or a manifest.
const CONTENT_AWAITED: &str =
    "per: the content is awaited; Ctrl-D at the beginning of a line ends it";

const MANIFEST_AWAITED: &str =
    "per: the manifest is awaited; Ctrl-D at the beginning of a line ends it";

/// The lines of the call, with what it takes of a file or of standard input.
///
/// # Errors
///
/// What it takes cannot be read, or makes no lines of an event; or memory ran out.
pub fn lines_of_call<R: Files<File = File> + AllocGlobal + Input + Screen>(
    rt: &R,
    alloc: Global,
    accepted: Accepted<'_>,
) -> Result<CallText, Unmade>
    // Of a call that takes nothing they are the lines that its words say.
    ensures { IfOk result (λ text. IfSome (lines_of accepted.entry) (λ lines. text ≡ lines)) }
{
    match accepted {
        Accepted::Lines(lines) => Ok(CallText::whole(alloc, lines)),
        Accepted::Manifest { call, target, file } => {
            let manifest = manifest_in(rt, alloc, file)?;
            let lines = lines_of_manifest(alloc, call, target, manifest.as_slice())?;
            Ok(CallText::whole(alloc, lines))
        }
        Accepted::Content { target, file } => {
            say_awaited(rt, CONTENT_AWAITED);
            let pieces = pieces_of_input(rt, alloc)?;
            Ok(content_lines(alloc, target, file, pieces)?)
        }
    }
}

/// The line of a call of an application with this manifest.
fn lines_of_manifest(
    alloc: Global,
    call: &[u8],
    target: &[u8],
    manifest: &[u8],
) -> Result<Vec<u8>, Unmade> {
    match manifest_lines(alloc, call, target, manifest) {
        Ok(lines) => Ok(lines),
        Err(LineError::NotALine) if manifest.is_empty() => Err(Unmade::NoManifest),
        Err(LineError::NotALine) if manifest.len() > MANIFEST_BYTES => Err(Unmade::LongManifest),
        Err(error) => Err(Unmade::from(error)),
    }
}

/// The manifest in this file; the file `-` is standard input.
fn manifest_in<R: Files<File = File> + AllocGlobal + Input + Screen>(
    rt: &R,
    alloc: Global,
    file: &[u8],
) -> Result<Vec<u8>, Unmade> {
    match str::from_utf8(file) {
        Ok("-") => {
            say_awaited(rt, MANIFEST_AWAITED);
            Ok(input_of(rt, alloc)?)
        }
        Ok(file) => Ok(bytes_in(rt, alloc, file)?),
        Err(_) => Err(Unmade::Refused),
    }
}

/// What standard input has.
fn input_of<R: AllocGlobal + Input>(rt: &R, alloc: Global) -> io::Result<Vec<u8>> {
    let mut bytes = Vec::new(alloc);
    rt.reader().take(CONTENT_BYTES).read_to_end(&mut bytes)?;
    Ok(bytes)
}

/// What standard input has, in pieces, of which all but the last are full.
fn pieces_of_input<R: AllocGlobal + Input>(rt: &R, alloc: Global) -> io::Result<Vec<Vec<u8>>> {
    let mut input = rt.reader().take(CONTENT_BYTES);
    let mut pieces = Vec::new(alloc);
    for _ in 0..PIECES {
        let piece = piece_of(alloc, &mut input)?;
        let is_last = piece.len() < PIECE_BYTES;
        if !piece.is_empty() {
            pieces.push(piece).map_err(AllocError::from)?;
        }
        if is_last {
            break;
        }
    }
    Ok(pieces)
}

/// The next piece of an input, which is full unless the input ends. The room is for one byte more, so that it does not
/// grow where no byte is left.
fn piece_of<I: Read>(alloc: Global, input: &mut I) -> io::Result<Vec<u8>> {
    let mut piece = Vec::with_capacity(alloc, PIECE_BYTES + 1)?;
    input
        .by_ref()
        .take(PIECE_BYTES as u64)
        .read_to_end(&mut piece)?;
    Ok(piece)
}

/// What this file has.
fn bytes_in<R: Files<File = File>>(rt: &R, alloc: Global, file: &str) -> io::Result<Vec<u8>> {
    let mut bytes = Vec::new(alloc);
    fs::open(rt, file)?
        .take(CONTENT_BYTES)
        .read_to_end(&mut bytes)?;
    Ok(bytes)
}
