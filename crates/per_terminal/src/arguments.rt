//! The arguments of the program: why they cannot be read, and what is wrong with one.

ghost use Rattle.std.specs.Prelude.{◌≡◌, ◌≢◌, ◌++◌, IfOk, None, codes, false, is_some, map, option_map, string_bytes};
ghost use Rattle.std.specs.IoError.{error_kind};
ghost use Rattle.std.specs.Str.{bytes_eq};
ghost use Rattle.std.specs.declared.io.ErrorKind.TheVariants.{OutOfMemory};
ghost use Rattle.per_reasons.specs.Reasons.{IsShown, dots_after, word_shown};
ghost use Rattle.per_terminal.specs.Arguments.{has_dashed_folder, said_of_other, said_of_word};

use crate::folders::typed_option;
use crate::saying::{Screen, no_memory, say};
use crate::statuses::NO_WORDS;
use per_reasons::{dots_after, text_shown};
use per_words::is_line_word;
use std::alloc::{AllocError, Global};
use std::{env, io};

/// How many bytes an argument has at most of which it is said that it is no text.
const ARGUMENT_BYTES: usize = 4096;

/// How many bytes of it are shown.
const SHOWN_BYTES: usize = 60;

/// The arguments after the program's name.
///
/// # Errors
///
/// Where one is no text or the system does not give them; where memory ran out.
pub fn words_of(rt: &(impl env::Env + AllocGlobal)) -> io::Result<Vec<String>> {
    let words = env::args(rt)?;
    match words.skip(1).collect(rt.alloc()) {
        Ok(words) => Ok(words),
        Err(_) => Err(io::Error::from(io::ErrorKind::OutOfMemory)),
    }
}

/// Says why the arguments cannot be read, and gives the status.
pub fn say_unread<R: env::Env + AllocGlobal + Screen>(rt: &R, error: io::Error) -> u8
    ensures memory { error_kind error ≡ OutOfMemory → result ≡ 4 }
    ensures other { error_kind error ≢ OutOfMemory → result ≡ 12 }
{
    match error.kind() {
        io::ErrorKind::OutOfMemory => no_memory(rt),
        _ => {
            let _ = say_why(rt, error);
            NO_WORDS
        }
    }
}

/// Says why the arguments cannot be read, and which one is no text, where one is.
fn say_why<R: env::Env + AllocGlobal + Screen>(rt: &R, error: io::Error) -> io::Result<()> {
    let alloc = rt.alloc();
    let line = match no_text(rt, alloc)? {
        Some((number, shown)) => format!(in alloc;
            "per: the arguments cannot be read: argument {number} is no text in UTF-8: {shown}"
        ),
        None => format!(in alloc; "per: the arguments cannot be read: {error}"),
    };
    say(rt, alloc, line)
}

/// The first argument after the program's name that is no text, by its number, and as much of it as is shown.
fn no_text<R: env::Env>(rt: &R, alloc: Global) -> Result<Option<(usize, String)>, AllocError> {
    for number in 1..usize::MAX {
        let mut room = [0u8; ARGUMENT_BYTES];
        match rt.arg(number, &mut room) {
            Ok(length) => {
                let word = room.get(..length).unwrap_or(&[]);
                if str::from_utf8(word).is_err() {
                    return Ok(Some((number, shown(alloc, word)?)));
                }
            }
            // It is passed over, since it is too long to be looked at.
            Err(env::FillError::TooLong) => {}
            Err(env::FillError::NotPresent) => return Ok(None),
        }
    }
    Ok(None)
}

/// The first bytes of a word, with the digits of those that no ASCII shows.
fn shown(alloc: Global, word: &[u8]) -> Result<String, AllocError> {
    let mut text = String::new(alloc);
    for byte in word.iter().take(SHOWN_BYTES) {
        if byte.is_ascii_graphic() {
            text.push(char::from(*byte))?;
        } else {
            text.push_str(format!(in alloc; "\\x{byte:02x}")?.as_str())?;
        }
    }
    if word.len() > SHOWN_BYTES {
        text.push_str("..")?;
    }
    Ok(text)
}

/// How a folder is typed whose name begins with a dash, where one stands after its option.
pub fn dashed_folder(alloc: Global, options: &[String]) -> Result<Option<String>, AllocError>
    ensures { IfOk result (λ why. is_some why ≡ has_dashed_folder false (map string_bytes options.now)) }
{
    let mut is_folder = false;
    for word in options {
        if is_folder && word.as_bytes().starts_with(b"-") {
            return Ok(Some(why_dashed(alloc, word)?));
        }
        is_folder = word.as_bytes() == b"--dir".as_slice();
    }
    Ok(None)
}

fn why_dashed(alloc: Global, dir: &String) -> Result<String, AllocError> {
    let typed = typed_option(alloc, dir.as_str())?;
    format!(in alloc; "--dir takes a folder, and one that begins with a dash as {typed}")
}

/// That the word is none of the arguments, where it can be shown, or where alone it stands.
pub fn wrong_word(alloc: Global, word: &[u8]) -> Result<Option<String>, AllocError>
    ensures shown { IsShown (word_shown word.now)
        → IfOk result (λ why. option_map string_bytes why ≡ said_of_word word.now (word_shown word.now)) }
    ensures hidden { ¬ (IsShown (word_shown word.now)) → IfOk result (λ why. why ≡ None) }
{
    match text_shown(word) {
        Some(shown) => said_of_word(alloc, word, shown),
        None => Ok(None),
    }
}

/// What is said of a word of which this is shown.
fn said_of_word(alloc: Global, word: &[u8], shown: &str) -> Result<Option<String>, AllocError>
    ensures { IfOk result (λ said. option_map string_bytes said ≡ said_of_word word.now shown.now) }
{
    if is_text(shown, "") {
        return Ok(None);
    }
    if is_text(shown, "--demo") {
        return Ok(Some(String::from_str(alloc, "--demo stands alone")?));
    }
    if is_text(shown, "--json") {
        return Ok(Some(String::from_str(alloc, "--json stands beside ls alone")?));
    }
    Ok(Some(said_of_other(alloc, word, shown)?))
}

/// What is said of a word of which this is shown, and which stands beside others nowhere.
fn said_of_other(alloc: Global, word: &[u8], shown: &str) -> Result<String, AllocError>
    ensures { IfOk result (λ said. string_bytes said ≡ said_of_other word.now shown.now) }
{
    if is_line_word(word) {
        said_of_call(alloc, shown)
    } else {
        said_of_stranger(alloc, word, shown)
    }
}

fn said_of_call(alloc: Global, shown: &str) -> Result<String, AllocError>
    ensures { IfOk result (λ said. string_bytes said
        ≡ shown.now ++ codes " is a call of a line: ./per --dir DIR handles lines") }
{
    format!(in alloc; "{shown} is a call of a line: ./per --dir DIR handles lines")
}

fn said_of_stranger(alloc: Global, word: &[u8], shown: &str) -> Result<String, AllocError>
    ensures { IfOk result (λ said. string_bytes said
        ≡ shown.now ++ (dots_after word.now ++ codes " is none of these")) }
{
    let dots = dots_after(word);
    format!(in alloc; "{shown}{dots} is none of these")
}

fn is_text(text: &str, other: &str) -> bool
    ensures { result ≡ bytes_eq text.now other.now }
{
    text == other
}
