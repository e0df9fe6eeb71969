//! The program `per`: a folder, standard input and standard output.
//!
//! `per --dir DIR` makes the folder a disk, standard input a source and standard output a sink, and ends with the
//! status of [`per_run::per_run`] over them and the six converters of [`number_converters`]. `per --help` says what
//! there is, and `per --demo` shows a first session. A call by itself, as `per get 0:cockpit volume --dir DIR`, is such
//! a run too ([`call`]): of the lines that make the call, with its reply for a person. `per ls --dir DIR` runs the job
//! that says what is there ([`listing`]). Another job may be named as a call is ([`jobs`]). `per dump --dir DIR` and
//! `per restore --dir DIR` carry whole applications as a text ([`dumping`]).
//!
//! Where a run did not end well, one line on standard error says why ([`per_terminal::say_end`]), and of invalid
//! arguments what is wrong with them ([`usage`]). Main itself ends with 4 where memory runs out before the top call,
//! with 6 where a standard stream that was closed cannot be filled, and with 12 where the system does not give the
//! arguments; help and the demo also with 6 where the output fails, and the demo with 3 where its folder cannot be
//! made; a call by itself with 1 where its arguments are invalid, with 3 where the device failed in it, with 5 where
//! what it takes cannot be read, and with 9 where it was refused. The status is 3 or 11 too where the file of a flash
//! cannot be looked at, or has more bytes than its blocks.
//!
//! At a terminal the lines of a run are asked for, and what is said on standard error fits 80 columns
//! ([`per_terminal`]).
#![tactic(auto)]

mod call;
mod demo;
mod dumping;
mod jobs;
mod listing;
mod program;
mod usage;

use per_run::{JobKind, read_words};
use per_system::fill_streams;
use per_terminal::{
    Asking, NO_OUTPUT, no_memory, say_awaited, say_unread, show_help, show_version, words_of,
};
use per_words::{asks_for, is_call, named_words};
use std::io::IsTerminal;
use std::process::{self, ExitCode};

/// The version of the sources.
const VERSION: &str = "0.24.0";

/// What is said to a person who is to type an export.
const EXPORT_AWAITED: &str =
    "per: the export is awaited; Ctrl-D at the beginning of a line ends it";

/// What the arguments ask of main itself.
#[derive(Clone, Copy)]
enum Asked {
    Help,
    Version,
    Demo,
    /// One call, by itself.
    Call,
    /// What is there.
    Listing,
    /// A job of the program, named as a call is.
    Job,
    /// Whole applications as a text, or back.
    Dump,
    /// A run of the program, if the arguments are valid.
    Run,
}

fn main(rt: HostRuntime) -> ExitCode {
    let _streams = match fill_streams(&rt) {
        Ok(streams) => streams,
        Err(error) => {
            let _ = eprintln!(rt; "per: the standard streams cannot be opened: {error}");
            return ExitCode::from(NO_OUTPUT);
        }
    };
    let words = match words_of(&rt) {
        Ok(words) => words,
        Err(error) => return ExitCode::from(say_unread(&rt, error)),
    };
    ExitCode::from(answered(&rt, &words))
}

/// Does what the arguments ask for, and gives the status.
fn answered(rt: &HostRuntime, words: &[String]) -> u8 {
    let Ok(named) = named_words(rt.alloc(), words) else {
        return no_memory(rt);
    };
    let named = named.as_slice();
    match wish_of(words, named) {
        Asked::Help => show_help(rt, rt.alloc()),
        Asked::Version => show_version(rt, rt.alloc(), VERSION),
        Asked::Demo => demo::show(rt, process::id(rt.process())),
        Asked::Call => call::run(rt, words, named),
        Asked::Listing => listing::run(rt, words),
        Asked::Job => jobs::run(rt, words, named),
        Asked::Dump => dumping::run(rt, words, named),
        Asked::Run => run(rt, words),
    }
}

/// Runs the program, for a person at a terminal or not, and gives the status.
fn run(rt: &HostRuntime, words: &[String]) -> u8 {
    if is_asked(rt, words) {
        return program::run_asked(rt, words, Asking::new(rt, rt.alloc()), rt.stdout());
    }
    if awaits_export(rt, words) {
        say_awaited(rt, EXPORT_AWAITED);
    }
    program::run(rt, words, rt.stdin(), rt.stdout())
}

fn wish_of(words: &[String], named: &[&[u8]]) -> Asked {
    if asks_for(words, b"--help") {
        return Asked::Help;
    }
    if asks_for(words, b"--version") {
        return Asked::Version;
    }
    match words {
        [word] => match word.as_str() {
            "-h" => return Asked::Help,
            "--demo" => return Asked::Demo,
            _ => {}
        },
        _ => {}
    }
    match named {
        [word] if *word == b"ls".as_slice() => Asked::Listing,
        [call, ..] if is_call(call) => Asked::Call,
        [job, ..] if jobs::is_job(job) => Asked::Job,
        [word, ..] if dumping::is_word(word) => Asked::Dump,
        _ => Asked::Run,
    }
}

/// Whether a person at a terminal is to be asked for lines.
fn is_asked(rt: &HostRuntime, words: &[String]) -> bool {
    if !rt.stdin().is_terminal() || !rt.stdout().is_terminal() {
        return false;
    }
    match read_words(rt.alloc(), words) {
        Ok(job) => matches!(job.kind, JobKind::Run | JobKind::Serve),
        Err(_) => false,
    }
}

/// Whether a person at a terminal is to type the export that an import takes.
fn awaits_export(rt: &HostRuntime, words: &[String]) -> bool {
    if !rt.stdin().is_terminal() {
        return false;
    }
    match read_words(rt.alloc(), words) {
        Ok(job) => matches!(job.kind, JobKind::Import(_, _)),
        Err(_) => false,
    }
}
