//! What is wrong with the arguments of a run.

use per_run::{WordsError, read_words};
use per_terminal::{Screen, dashed_folder, say, wrong_word};
use per_words::{options_in, unknown_in};
use std::alloc::{AllocError, Global};
use std::io;

/// What is said of invalid arguments.
const USAGE: &str = "usage: per --dir DIR [--flash N] [--serve | --format | --generate N | --audit |
           --export A:S | --import A:S | --list FORM | --recover-root A]
       per WORD .. --dir DIR [--flash N] [-- ..], where WORD is one of
           ls dump restore recover-root install update status finish rollback
           wipe get set get-as keys exists remove remove-all recover-key
           reset-key cat put files file-exists size-of info delete recover-file
           reset-file recover-storage reset-storage
       per --help, --version or --demo";

/// The options with a value, and what they take.
const VALUES: [(&str, &str); 7] = [
    ("--dir", "a folder"),
    ("--flash", "a number of blocks, 4 to 4096"),
    ("--generate", "a number, 1 to 100000"),
    ("--export", "an application, 0 to 7, and a storage, as 0:k"),
    ("--import", "an application, 0 to 7, and a storage, as 0:k"),
    ("--list", "lines or json"),
    ("--recover-root", "an application, 0 to 7"),
];

/// Says what is wrong with the arguments of a run, and which there are.
pub(crate) fn say_usage<R: Screen>(rt: &R, alloc: Global, words: &[String]) -> io::Result<()> {
    if let Some(why) = wrong_words(alloc, words)? {
        say(rt, alloc, format!(in alloc; "per: {why}"))?;
    }
    rt.eprintln(USAGE)
}

/// What is wrong with the arguments of a run: the folder begins with a dash, one is none of these, a value is none of
/// its option, the folder is not named, or two do not stand together.
fn wrong_words(alloc: Global, words: &[String]) -> Result<Option<String>, AllocError> {
    let options = options_in(alloc, words)?;
    if let Some(why) = dashed_folder(alloc, options.as_slice())? {
        return Ok(Some(why));
    }
    if let Some(word) = unknown_in(words) {
        return wrong_word(alloc, word);
    }
    for (option, takes) in VALUES.iter() {
        if has_wrong_value(alloc, words, option)? {
            return Ok(Some(format!(in alloc; "{option} takes {takes}")?));
        }
    }
    let why = if words.iter().any(|word| is_option(word, "--dir")) {
        "two of these options do not stand together"
    } else {
        "what is missing is --dir DIR"
    };
    Ok(Some(String::from_str(alloc, why)?))
}

/// Whether the option stands among the arguments with a value that it does not take, or without one. The value is tried
/// as that of the option alone.
fn has_wrong_value(alloc: Global, words: &[String], option: &str) -> Result<bool, AllocError> {
    for (at, word) in words.iter().enumerate() {
        if is_option(word, option) {
            let value = words.get(at.saturating_add(1));
            let tried = words_tried(alloc, word, value, option)?;
            match read_words(alloc, tried.as_slice()) {
                Ok(_) => {}
                Err(WordsError::Refused) => return Ok(true),
                Err(WordsError::OutOfMemory) => return Err(AllocError),
            }
        }
    }
    Ok(false)
}

/// The arguments that a value is tried in: its option, and a folder where that is another one.
fn words_tried(
    alloc: Global,
    word: &String,
    value: Option<&String>,
    option: &str,
) -> Result<Vec<String>, AllocError> {
    let mut tried = Vec::new(alloc);
    if option != "--dir" {
        tried.push(String::from_str(alloc, "--dir=.")?)?;
    }
    tried.push(word.clone()?)?;
    if word.as_str() == option {
        if let Some(value) = value {
            tried.push(value.clone()?)?;
        }
    }
    Ok(tried)
}

/// Whether the word is this option, with its value after an equals sign or not.
fn is_option(word: &String, option: &str) -> bool {
    match word.as_bytes().strip_prefix(option.as_bytes()) {
        Some([]) | Some([b'=', ..]) => true,
        _ => false,
    }
}
