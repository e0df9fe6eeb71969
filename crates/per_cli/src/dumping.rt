//! Whole applications as a text, from a shell: `per dump --dir DIR`, and back: `per restore --dir DIR`.

use per_run::{JobKind, WordsError, read_words};
use per_terminal::{REFUSED_WORDS, Screen, no_memory};
use per_words::options_in;
use shell_dumps::{Place, dump_or_restore};
use std::alloc::{AllocError, Global};
use std::fs::File;
use std::io::Input;
use std::rt::Files;

/// Whether the word asks for a dump or a restore.
pub(crate) fn is_word(word: &[u8]) -> bool {
    word == b"dump".as_slice() || word == b"restore".as_slice()
}

/// Makes a dump, or restores one, as the words ask, and gives the status.
pub(crate) fn run<R: Files<File = File> + AllocGlobal + Input + Print + Screen>(
    rt: &R,
    words: &[String],
    named: &[&[u8]],
) -> u8 {
    match place_of(rt.alloc(), words) {
        Ok(Some(place)) => dump_or_restore(rt, named, place),
        Ok(None) => {
            let _ = rt.eprintln(
                "per: invalid arguments: options are --dir DIR and --flash N alone (per --help)",
            );
            REFUSED_WORDS
        }
        Err(_) => no_memory(rt),
    }
}

/// The folder, and the blocks of its flash; none where the options are others.
fn place_of(alloc: Global, words: &[String]) -> Result<Option<Place>, AllocError> {
    let options = options_in(alloc, words)?;
    match read_words(alloc, options.as_slice()) {
        Ok(job) if matches!(job.kind, JobKind::Run) => Ok(Some(Place {
            dir: job.dir.into_string(),
            flash: job.flash,
        })),
        Ok(_) | Err(WordsError::Refused) => Ok(None),
        Err(WordsError::OutOfMemory) => Err(AllocError),
    }
}
