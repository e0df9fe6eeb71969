//! Why a run ended, in one line on standard error. It is said after the run and changes nothing of it, and no clause
//! speaks of it: each line is tested.

use crate::folders::{has_folder, typed_option};
use crate::saying::{Screen, say, say_command, say_stream};
use std::alloc::Global;
use std::rt::Files;
use std::{fmt, fs, io};
use system_model::{Asked, Failure};

/// Why calls of the disk failed.
#[derive(Clone, Copy, Debug)]
pub enum Fault {
    /// The last call of the system that failed.
    System(Failure),
    /// The disk over the flash takes no more.
    Full,
    /// The file of the flash has more bytes than its blocks.
    Longer,
}

impl fmt::Display for Fault {
    fn fmt<W: fmt::Write>(&self, f: &mut fmt::Formatter<W>) -> fmt::Result {
        match self {
            Fault::System(failure) => write!(f, "{failure}"),
            Fault::Full => write!(f, "its flash takes no more pages"),
            Fault::Longer => write!(f, "its file flash has more blocks"),
        }
    }
}

/// What is known of a run that ended.
#[derive(Clone, Copy)]
pub struct Ended<'a> {
    /// The status with which it ended.
    pub status: u8,
    /// The folder that it was over.
    pub dir: &'a str,
    /// How many blocks the flash has, where the folder is to hold one.
    pub flash: Option<u32>,
    /// Whether the lines of the input were to be handled.
    pub takes_lines: bool,
    /// Whether what is in the folder was to be said.
    pub lists: bool,
    /// Whether a file of the disk or of the flash is in the folder.
    pub has_files: bool,
    /// Whether it was said that none is.
    pub is_told: bool,
    /// Whether a line of an audit says that something is damaged or lost.
    pub has_damage: bool,
    /// Why the disk failed last.
    pub disk: Option<Fault>,
    /// Why the input did.
    pub source: Option<io::Error>,
    /// Why the output did.
    pub sink: Option<io::Error>,
}

/// Says why a command was answered by error 4.
pub fn say_answered<R: Files + Screen>(
    rt: &R,
    alloc: Global,
    dir: &str,
    fault: Option<Fault>,
) -> io::Result<()> {
    if !has_folder(rt, dir) {
        return say_no_folder(rt, alloc, dir);
    }
    say_failure(
        rt,
        alloc,
        "error 4 was answered, since the disk failed",
        dir,
        fault,
    )
}

/// Says that a folder is not formatted, since files of others are in it.
pub fn say_foreign<R: Screen>(
    rt: &R,
    alloc: Global,
    dir: &str,
    flash: Option<u32>,
) -> io::Result<()> {
    let option = typed_option(alloc, dir)?;
    let line = match flash {
        Some(blocks) => format!(in alloc;
            "per: the folder {dir} holds other files and no flash: ./per --format --flash {blocks} {option}"
        ),
        None => format!(in alloc;
            "per: the folder {dir} holds other files, and is not formatted: ./per --format {option}"
        ),
    };
    say_command(rt, alloc, dir, line)
}

/// Says why a run ended where its status is not 0. At status 0 it says that a folder is not there or was not formatted,
/// since every command but `now` and `wipe` is then refused, and why commands of a synthetic workload were answered by
/// error 4. Of status 1 it says nothing: why arguments are invalid shows in them.
pub fn say_end<R: Files + Screen>(rt: &R, alloc: Global, ended: &Ended<'_>) -> io::Result<()> {
    match ended.status {
        0 => say_of_answers(rt, alloc, ended),
        2 => rt.eprintln(
            "per: a line is outside the grammar; the last reply has its number (per --help)",
        ),
        3 => say_of_device(rt, alloc, ended),
        4 => rt.eprintln("per: memory ran out"),
        5 => say_stream(rt, alloc, "standard input", ended.source),
        6 => say_stream(rt, alloc, "standard output", ended.sink),
        7 => rt.eprintln("per: the first 67108864 bytes of the input have no line `end`"),
        8 | 9 if !ended.has_files => say_if_untold(rt, alloc, ended),
        8 if ended.has_damage => rt.eprintln(
            "per: the audit found something damaged or lost; its lines say what",
        ),
        8 => rt.eprintln(
            "per: unsettled only: nothing is damaged or lost, and the next opening settles it",
        ),
        9 => rt.eprintln(
            "per: the export, import or recovery was refused; the line written says why",
        ),
        10 => {
            let dir = ended.dir;
            let line = format!(in alloc;
                "per: the flash in {dir} cannot be opened: it holds more pages of files than its blocks may, or no block is spare"
            );
            say(rt, alloc, line)
        }
        11 => say_of_size(rt, alloc, ended),
        _ => Ok(()),
    }
}

/// Says why the device failed, or was not held.
fn say_of_device<R: Files + Screen>(rt: &R, alloc: Global, ended: &Ended<'_>) -> io::Result<()> {
    let dir = ended.dir;
    if is_other(rt, dir) {
        return say(rt, alloc, format!(in alloc; "per: {dir} is no folder"));
    }
    if !has_folder(rt, dir) {
        return say_no_folder(rt, alloc, dir);
    }
    if is_held(ended) {
        let line = format!(in alloc; "per: the folder {dir} is in use by another run");
        return say(rt, alloc, line);
    }
    let what = if is_sync(ended) {
        "the disk failed, and the system is to be restarted before the next run"
    } else {
        "the disk failed"
    };
    say_failure(rt, alloc, what, dir, ended.disk)
}

fn say_of_answers<R: Files + Screen>(rt: &R, alloc: Global, ended: &Ended<'_>) -> io::Result<()> {
    if (ended.takes_lines || ended.lists) && !ended.has_files {
        say_if_untold(rt, alloc, ended)
    } else if ended.disk.is_some() && !ended.takes_lines {
        say_answered(rt, alloc, ended.dir, ended.disk)
    } else {
        Ok(())
    }
}

/// Says that the folder is not formatted, or not there, where it was not said already, also of a command for which the
/// disk failed.
fn say_if_untold<R: Files + Screen>(rt: &R, alloc: Global, ended: &Ended<'_>) -> io::Result<()> {
    let has_failed = ended.disk.is_some() && !has_folder(rt, ended.dir);
    if ended.is_told || (ended.status == 0 && has_failed) {
        return Ok(());
    }
    say_of_folder(rt, alloc, ended.dir, ended.flash)
}

/// Says why a flash has the wrong size.
fn say_of_size<R: Screen>(rt: &R, alloc: Global, ended: &Ended<'_>) -> io::Result<()> {
    let dir = ended.dir;
    let line = match (ended.disk, ended.flash) {
        (Some(Fault::Longer), Some(blocks)) => format!(in alloc;
            "per: the flash in {dir} cannot be opened: its file has more than {blocks} blocks"
        ),
        _ => format!(in alloc;
            "per: the flash in {dir} cannot be opened: it has fewer than 4 blocks, or more than 4096"
        ),
    };
    say(rt, alloc, line)
}

/// Whether another run holds the folder.
fn is_held(ended: &Ended<'_>) -> bool {
    match ended.disk {
        Some(Fault::System(failure)) => {
            failure.asked == Asked::Lock && failure.error.kind() == io::ErrorKind::WouldBlock
        }
        _ => false,
    }
}

/// Whether a sync failed, so that the next run may read what the device does not hold.
fn is_sync(ended: &Ended<'_>) -> bool {
    match ended.disk {
        Some(Fault::System(failure)) => failure.asked == Asked::Sync,
        _ => false,
    }
}

/// Explains that a folder with no file of the disk or of the flash is not formatted, or not there.
pub fn say_of_folder<R: Files + Screen>(
    rt: &R,
    alloc: Global,
    dir: &str,
    flash: Option<u32>,
) -> io::Result<()> {
    if !has_folder(rt, dir) {
        return say_no_folder(rt, alloc, dir);
    }
    let option = typed_option(alloc, dir)?;
    let line = match flash {
        Some(blocks) => format!(in alloc;
            "per: the flash in {dir} is not formatted: ./per --format --flash {blocks} {option}"
        ),
        None => format!(in alloc;
            "per: the folder {dir} is not formatted: ./per --format {option}"
        ),
    };
    say_command(rt, alloc, dir, line)
}

fn say_no_folder<R: Screen>(rt: &R, alloc: Global, dir: &str) -> io::Result<()> {
    let line = format!(in alloc; "per: there is no folder {dir}");
    say(rt, alloc, line)
}

fn say_failure<R: Screen>(
    rt: &R,
    alloc: Global,
    what: &str,
    dir: &str,
    fault: Option<Fault>,
) -> io::Result<()> {
    let line = match fault {
        Some(fault) => format!(in alloc; "per: {what}: {fault} in {dir}"),
        None => format!(in alloc; "per: {what} in {dir}"),
    };
    say(rt, alloc, line)
}

/// Whether something else than a folder has the name, as far as the system says.
fn is_other<R: Files>(rt: &R, dir: &str) -> bool {
    match fs::metadata(rt, dir) {
        Ok(found) => !found.is_dir(),
        Err(_) => false,
    }
}
