//! The reply that has bytes, written piece by piece, so that its text is never there as a whole.

ghost use Rattle.std.specs.Prelude.{◌≡◌, ◌≤◌, ◌*◌, ◌+◌, ◌++◌, ◌∷◌, [], OnOk, OnErr, IfSome, codes, length};
ghost use Rattle.std.specs.Io.KnownBytes.{Appends};
ghost use Rattle.per_base.specs.Causes.{HasCause};
ghost use Rattle.value_text.specs.Texts.{hex_text};
ghost use Rattle.command_text.specs.declared.replies.Answer.{Answer};
ghost use Rattle.command_text.specs.Replies.{octets_text};
ghost use Rattle.per_run.specs.Jobs.{WroteProperPrefix};
ghost use Rattle.per_run.specs.Steps.{Blames, PutsOutput};

use crate::endings::Ending;
use crate::input::zeros;
use crate::writing::write_all;
use command_text::{Answer, Reply};
use per_base::{Failed, Sink};
use std::alloc::Global;
use value_text::spell_hex;

/// How many bytes are spelled at once.
const PIECE_BYTES: usize = 16_384;

/// The bytes that a reply has, where it has nothing else and they are more than this.
const FEW_BYTES: usize = 2_000;

/// The bytes of a reply that has nothing else, where they are many.
pub fn many_octets(reply: &Reply) -> Option<&[u8]>
    ensures reports { IfSome result (λ bytes. reply.now.reports ≡ []) }
    ensures answer { IfSome result (λ bytes. reply.now.answer ≡ Answer.Octets bytes.now) }
    ensures some { IfSome result (λ bytes. 1 ≤ length bytes.now) }
{
    if !reply.reports.as_slice().is_empty() {
        return None;
    }
    match &reply.answer {
        Answer::Octets(bytes) if bytes.len() > FEW_BYTES => Some(bytes.as_slice()),
        _ => None,
    }
}

/// Writes the line of an answer that has these bytes.
#[cold]
#[inline(never)]
pub fn write_octets<K: Sink>(alloc: Global, sink: &mut K, bytes: &[u8]) -> Result<(), Ending>
    requires { 1 ≤ length bytes.now }
    // The sink took the whole line; or it failed, only where its count of failures rose; or memory ran out.
    ensures puts { PutsOutput (octets_text bytes.now ++ 10 ∷ []) (K.written sink.old) (K.written sink.new) result }
    ensures blames { Blames (K.faults sink.old) (K.faults sink.new) result }
{
    match zeros(alloc, 2 * bytes.len().min(PIECE_BYTES)) {
        Ok(mut digits) => match write_line(sink, digits.as_mut_slice(), bytes) {
            Ok(()) => Ok(()),
            Err(_) => Err(Ending::Sink),
        },
        Err(_) => Err(Ending::OutOfMemory),
    }
}

/// The same in pieces that have room for their digits.
fn write_line<K: Sink>(sink: &mut K, digits: &mut [u8], bytes: &[u8]) -> Result<(), Failed>
    requires room { 2 ≤ length digits.old }
    requires some { 1 ≤ length bytes.now }
    ensures whole { OnOk result (Appends (K.written sink.old) (K.written sink.new)
        (octets_text bytes.now ++ 10 ∷ [])) }
    ensures cut { OnErr result (WroteProperPrefix (K.written sink.old) (K.written sink.new)
        (octets_text bytes.now ++ 10 ∷ [])) }
    ensures cause { HasCause (K.faults sink.old) (K.faults sink.new) result }
{
    match write_all(sink, b"bytes ") {
        Ok(()) => write_digits_and_feed(sink, digits, bytes),
        Err(failed) => Err(failed),
    }
}

/// Writes the digits of these bytes, and a line feed.
fn write_digits_and_feed<K: Sink>(
    sink: &mut K,
    digits: &mut [u8],
    bytes: &[u8],
) -> Result<(), Failed>
    requires { 2 ≤ length digits.old }
    ensures whole { OnOk result (Appends (K.written sink.old) (K.written sink.new) (hex_text bytes.now ++ 10 ∷ [])) }
    ensures cut { OnErr result (WroteProperPrefix (K.written sink.old) (K.written sink.new)
        (hex_text bytes.now ++ 10 ∷ [])) }
    ensures cause { HasCause (K.faults sink.old) (K.faults sink.new) result }
{
    match write_digits(sink, digits, bytes) {
        Ok(()) => write_all(sink, b"\n"),
        Err(failed) => Err(failed),
    }
}

/// Writes the digits of these bytes.
fn write_digits<K: Sink>(sink: &mut K, digits: &mut [u8], bytes: &[u8]) -> Result<(), Failed>
    requires { 2 ≤ length digits.old }
    ensures whole { OnOk result (Appends (K.written sink.old) (K.written sink.new) (hex_text bytes.now)) }
    ensures cut { OnErr result (WroteProperPrefix (K.written sink.old) (K.written sink.new) (hex_text bytes.now)) }
    ensures cause { HasCause (K.faults sink.old) (K.faults sink.new) result }
{
    let most = digits.len() / 2;
    if bytes.len() <= most {
        return write_piece(sink, digits, bytes);
    }
    let (piece, rest) = bytes.split_at(most);
    match write_piece(sink, digits, piece) {
        Ok(()) => write_digits(sink, digits, rest),
        Err(failed) => Err(failed),
    }
}

/// Writes the digits of a piece for which there is room.
fn write_piece<K: Sink>(sink: &mut K, digits: &mut [u8], piece: &[u8]) -> Result<(), Failed>
    requires { 2 * length piece.now ≤ length digits.old }
    ensures whole { OnOk result (Appends (K.written sink.old) (K.written sink.new) (hex_text piece.now)) }
    ensures cut { OnErr result (WroteProperPrefix (K.written sink.old) (K.written sink.new) (hex_text piece.now)) }
    ensures cause { HasCause (K.faults sink.old) (K.faults sink.new) result }
    ensures room { length digits.new ≡ length digits.old }
{
    let spelled = &mut digits[..2 * piece.len()];
    spell_hex(spelled, piece);
    write_all(sink, spelled)
}
