//! The bytes of the source, in pieces and as a whole.

ghost use Rattle.std.specs.Prelude.{◌≡◌, ◌<◌, ◌≤◌, MatchResult, IfOk, IsErrOf, length, take, true, vec_len};
ghost use Rattle.std.specs.Io.KnownBytes.{Consumes, IsAtEnd, Keeps};
ghost use Rattle.per_base.specs.Causes.{HasCause, Rose};
ghost use Rattle.per_run.specs.Jobs.{IsInputTaken};
ghost use Rattle.per_run.specs.Steps.{Breaks};

use crate::endings::Ending;
use per_base::{Failed, Source};
use std::alloc::{AllocError, Global};

/// An input that is read to its end has fewer bytes than this.
pub const INPUT_BYTES: usize = 67_108_864;

/// How many bytes are read at once.
pub const PIECE_BYTES: usize = 65_536;

/// Reads a piece of the source into the first `room` bytes of a buffer, and gives how many bytes it took.
pub fn read_piece<S: Source>(
    source: &mut S,
    buffer: &mut [u8],
    room: usize,
) -> Result<usize, Failed>
    requires some { 0 < room }
    requires within { room ≤ length buffer.old }
    ensures bound { IfOk result (λ count. count ≤ room) }
    // What was taken of the source is in the buffer, and nothing only at the end of the source; a failed call takes
    // nothing.
    ensures bytes { MatchResult result (λ count. Consumes (S.left source.old) (S.left source.new)
        (take count buffer.new)
        × (count ≡ 0 → IsAtEnd (S.left source.new))) (λ _. Keeps (S.left source.old) (S.left source.new)) }
    // The call fails only where the count of failures rose.
    ensures cause { HasCause (S.faults source.old) (S.faults source.new) result }
{
    match source.read(&mut buffer[..room]) {
        Ok(count) => Ok(count),
        Err(failed) => Err(failed),
    }
}

/// A buffer of `count` zeros.
pub fn zeros(alloc: Global, count: usize) -> Result<Vec<u8>, AllocError>
    ensures { IfOk result (λ bytes. vec_len bytes ≡ count) }
{
    vec![in alloc; 0; count]
}

/// Reads the source to its end.
///
/// Errors: `Source` where it failed; `TooLong` where it gave [`INPUT_BYTES`] bytes, and its end was not seen;
/// `OutOfMemory`.
pub fn read_whole<S: Source>(alloc: Global, source: &mut S) -> Result<Vec<u8>, Ending>
    // All bytes of the source are given, and its end was seen; or some were taken, and the end was not seen.
    ensures read { MatchResult result (λ whole. IsInputTaken (S.left source.old) (S.left source.new) whole.items true)
        (λ ending. Breaks (S.left source.old) (S.left source.new) ending) }
    ensures failed { IsErrOf result Ending.Source → Rose (S.faults source.old) (S.faults source.new) }
{
    match zeros(alloc, PIECE_BYTES) {
        Ok(mut buffer) => read_to_end(alloc, source, buffer.as_mut_slice()),
        Err(_) => Err(Ending::OutOfMemory),
    }
}

/// The same, in pieces as long as the buffer.
fn read_to_end<S: Source>(
    alloc: Global,
    source: &mut S,
    buffer: &mut [u8],
) -> Result<Vec<u8>, Ending>
    requires { 0 < length buffer.old }
    ensures read { MatchResult result (λ whole. IsInputTaken (S.left source.old) (S.left source.new) whole.items true)
        (λ ending. Breaks (S.left source.old) (S.left source.new) ending) }
    ensures failed { IsErrOf result Ending.Source → Rose (S.faults source.old) (S.faults source.new) }
{
    let mut whole = Vec::new(alloc);
    while whole.len() < INPUT_BYTES {
        let room = buffer.len().min(INPUT_BYTES - whole.len());
        match read_piece(source, buffer, room) {
            Ok(0) => return Ok(whole),
            Ok(count) => match whole.extend_from_slice(&buffer[..count]) {
                Ok(()) => {}
                Err(_) => return Err(Ending::OutOfMemory),
            },
            Err(_) => return Err(Ending::Source),
        }
    }
    Err(Ending::TooLong)
}
