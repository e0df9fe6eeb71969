//! What the words of a call say.

ghost use Rattle.std.specs.Prelude.{◌≡◌, IfOk, codes, map};
ghost use Rattle.std.specs.Str.{bytes_eq};
ghost use Rattle.shell_calls.specs.Accepted.{IsAcceptedOf};

use crate::unmade::Unmade;
use per_words::{call_lines, content_lines, takes_manifest};
use std::alloc::Global;

/// What the words of a call say, where they are none that are refused.
#[derive(Drop)]
pub enum Accepted<'a> {
    /// All of its lines.
    Lines(Vec<u8>),
    /// A manifest is taken from a file, for this call to this application.
    Manifest {
        call: &'a [u8],
        target: &'a [u8],
        file: &'a [u8],
    },
    /// The content of this file of this storage is taken from standard input.
    Content {
        target: &'a [u8],
        file: &'a [u8],
    },
}

/// What the words of a call say: its name, its application or storage, and what it takes. They are refused before
/// anything is read.
///
/// # Errors
///
/// They are those of no call, or memory ran out.
pub fn accepted_in<'a>(
    alloc: Global,
    call: &'a [u8],
    target: &'a [u8],
    arguments: &[&'a [u8]],
) -> Result<Accepted<'a>, Unmade>
    ensures { IfOk result (IsAcceptedOf call.now target.now (map (λ word. word.now) arguments.now)) }
{
    match arguments {
        [file] if takes_manifest(call) => {
            if !is_application(target) {
                return Err(Unmade::Refused);
            }
            Ok(Accepted::Manifest {
                call,
                target,
                file: *file,
            })
        }
        [file] if is_word(call, b"put") => {
            drop(content_lines(alloc, target, file, Vec::new(alloc))?);
            Ok(Accepted::Content {
                target,
                file: *file,
            })
        }
        _ => Ok(Accepted::Lines(call_lines(alloc, call, target, arguments)?)),
    }
}

/// Whether the call installs a first version.
pub fn is_installation(call: &[u8]) -> bool
    ensures { result ≡ bytes_eq call.now (codes "install") }
{
    is_word(call, b"install")
}

fn is_word(text: &[u8], word: &[u8]) -> bool
    ensures { result ≡ bytes_eq text.now word.now }
{
    text == word
}

/// Whether the word is the number of an application.
fn is_application(word: &[u8]) -> bool {
    match word {
        [digit] => is_digit(*digit),
        _ => false,
    }
}

/// Whether the byte is the number of an application.
pub(crate) fn is_digit(byte: u8) -> bool {
    byte >= b'0' && byte <= b'7'
}
