//! Why no call was made.

ghost use Rattle.std.specs.Prelude.{◌≡◌};
ghost use Rattle.shell_calls.specs.Unmade.{status_of};

use crate::refusals::{has_white_space, why_refused};
use command_text::LineError;
use per_terminal::{NO_INPUT, REFUSED_WORDS, Screen, dashed_folder, no_memory, say, wrong_word};
use per_words::{options_in, takes_manifest, unknown_in};
use std::alloc::{AllocError, Global};
use std::io;

/// Why no call was made.
#[derive(Clone, Copy)]
pub enum Unmade {
    /// The arguments are not those of a call.
    Refused,
    /// An option is none that may stand beside a call.
    Beside,
    /// The manifest is empty.
    NoManifest,
    /// The manifest is longer than one may be.
    LongManifest,
    /// A file, or the input, cannot be read.
    Unread(io::Error),
    OutOfMemory,
}

impl From<AllocError> for Unmade {
    fn from(_error: AllocError) -> Unmade {
        Unmade::OutOfMemory
    }
}

impl From<LineError> for Unmade {
    fn from(error: LineError) -> Unmade {
        match error {
            LineError::NotALine => Unmade::Refused,
            LineError::OutOfMemory => Unmade::OutOfMemory,
        }
    }
}

impl From<io::Error> for Unmade {
    fn from(error: io::Error) -> Unmade {
        match error.kind() {
            io::ErrorKind::OutOfMemory => Unmade::OutOfMemory,
            _ => Unmade::Unread(error),
        }
    }
}

/// Says why no call was made, and gives the status.
pub fn say_unmade<R: AllocGlobal + Screen>(
    rt: &R,
    words: &[String],
    named: &[&[u8]],
    unmade: Unmade,
) -> u8
    ensures { result ≡ status_of unmade }
{
    let line = match unmade {
        Unmade::Refused => {
            let _ = say_refused(rt, rt.alloc(), words, named);
            return REFUSED_WORDS;
        }
        Unmade::Beside => {
            "per: invalid arguments: a call takes --dir DIR and --flash N alone (per --help)"
        }
        Unmade::NoManifest => "per: invalid arguments: the manifest is empty (per --help)",
        Unmade::LongManifest => {
            "per: invalid arguments: the manifest has more than 65536 bytes (per --help)"
        }
        Unmade::Unread(error) => return say_unread(rt, rt.alloc(), input_name(named), error),
        Unmade::OutOfMemory => return no_memory(rt),
    };
    let _ = rt.eprintln(line);
    REFUSED_WORDS
}

/// Says why what the call takes cannot be read, and gives the status.
fn say_unread<R: Screen>(rt: &R, alloc: Global, input: &str, error: io::Error) -> u8
    ensures { result ≡ 5 }
{
    let line = format!(in alloc; "per: {input} cannot be read: {error}");
    let _ = say(rt, alloc, line);
    NO_INPUT
}

/// What the call takes: a file by its name, or standard input.
fn input_name<'a>(named: &[&'a [u8]]) -> &'a str {
    match named {
        [call, _, file] if takes_manifest(call) && *file != b"-".as_slice() => {
            str::from_utf8(*file).unwrap_or("the file")
        }
        _ => "standard input",
    }
}

/// Says why the arguments are invalid.
fn say_refused<R: Screen>(
    rt: &R,
    alloc: Global,
    words: &[String],
    named: &[&[u8]],
) -> io::Result<()> {
    if let Some(why) = wrong_option(alloc, words)? {
        return say_why(rt, alloc, why.as_str());
    }
    match why_refused(alloc, named) {
        Ok(Some(why)) => say_why(rt, alloc, why.as_str()),
        Ok(None) | Err(_) => rt.eprintln(refusal_of(named)),
    }
}

fn say_why<R: Screen>(rt: &R, alloc: Global, why: &str) -> io::Result<()> {
    let line = format!(in alloc; "per: invalid arguments: {why} (per --help)");
    say(rt, alloc, line)
}

/// Which option is none of a run, or names a folder that begins with a dash, where one does.
fn wrong_option(alloc: Global, words: &[String]) -> Result<Option<String>, AllocError> {
    let options = options_in(alloc, words)?;
    if let Some(why) = dashed_folder(alloc, options.as_slice())? {
        return Ok(Some(why));
    }
    match unknown_in(options.as_slice()) {
        Some(word) => wrong_word(alloc, word),
        None => Ok(None),
    }
}

/// What is said of arguments whose line does not show what is wrong.
fn refusal_of(named: &[&[u8]]) -> &'static str {
    match named {
        [call, ..] if takes_manifest(call) => {
            "per: invalid arguments: install and update take an application and one file"
        }
        _ if has_white_space(named) => {
            "per: invalid arguments: a name has no space, and nothing has a line feed"
        }
        _ => "per: invalid arguments: an application is 0 to 7, a storage named as 0:k",
    }
}
