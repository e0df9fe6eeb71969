//! Courses, one word after the other.

ghost use Rattle.std.specs.Prelude.{◌<◌, IfOk};

use crate::converters::with_converters;
use crate::faults::Fault;
use crate::images::{flip, hold, spoil, wear};
use crate::roots::viewed;
use crate::storages::stored;
use case_words::{CaseError, cut, number, numbers, small};
use deploy::format_all;
use disk_model::MemDisk;
use std::alloc::Global;

/// `course WORD ..`: what each word answers, from a disk of empty files on.
pub fn course(alloc: Global, words: &str) -> Result<String, CaseError> {
    let (_disk, said) = run(alloc, MemDisk::new(alloc), words)?;
    Ok(said)
}

/// What the words leave of a disk, and what each answers.
pub fn run(alloc: Global, disk: MemDisk, words: &str) -> Result<(MemDisk, String), CaseError> {
    let mut disk = disk;
    let mut said = String::new(alloc);
    for word in words.split_whitespace() {
        disk = step(alloc, disk, word, &mut said)?;
    }
    Ok((disk, said))
}

/// What one word leaves of a disk; its answers are added. Where the disk fails, the last is `failed`.
pub fn step(
    alloc: Global,
    disk: MemDisk,
    word: &str,
    said: &mut String,
) -> Result<MemDisk, CaseError> {
    let (verb, rest) = cut(word, ':');
    if verb == "restart" {
        add(said, "ok")?;
        return restarted(disk, rest);
    }
    let mut disk = disk;
    match told(alloc, &mut disk, verb, rest, said) {
        Ok(()) => {}
        Err(Fault::Device) => add(said, "failed")?,
        Err(Fault::CaseError) => return Err(CaseError::NoCase),
        Err(Fault::OutOfMemory) => return Err(CaseError::OutOfMemory),
    }
    Ok(disk)
}

/// Adds an answer after others.
pub fn add(said: &mut String, answer: &str) -> Result<(), CaseError> {
    if !said.is_empty() {
        said.push_str(" | ")?;
    }
    said.push_str(answer)?;
    Ok(())
}

/// After a power loss that keeps all writes since the last sync, none, or those of the pattern.
pub fn restarted(disk: MemDisk, way: &str) -> Result<MemDisk, CaseError> {
    let disk = match way {
        "all" => disk.crash(true)?,
        "none" => disk.crash(false)?,
        _ => disk.crash_torn(number(way)?)?,
    };
    Ok(disk)
}

// A word that works on the disk.
fn told(
    alloc: Global,
    disk: &mut MemDisk,
    verb: &str,
    rest: &str,
    said: &mut String,
) -> Result<(), Fault> {
    match verb {
        "format" => format_all(alloc, disk)?,
        "flip" => flip(alloc, disk, rest)?,
        "spoil" => spoil(disk, rest)?,
        "hold" => hold(alloc, disk, rest)?,
        "wear" => wear(alloc, disk, rest)?,
        "fail" => disk.fail_calls(numbers(alloc, rest)?),
        "stop" => disk.stop_after(number(rest)?),
        "view" => return viewed(alloc, disk, app_of(rest)?, said),
        "open" | "set" | "thing" | "recover" | "reset" => {
            let (app, rest) = cut(rest, ':');
            return stored(alloc, disk, app_of(app)?, verb, rest, said);
        }
        _ => return with_converters(alloc, disk, app_of(verb)?, rest, said),
    }
    add(said, "ok")?;
    Ok(())
}

// The number of an application.
fn app_of(word: &str) -> Result<u32, CaseError>
    ensures { IfOk result (λ app. app < 8) }
{
    let app = small(word)?;
    if app >= 8 {
        return Err(CaseError::NoCase);
    }
    Ok(app)
}
