//! The words of a course, one after the other.

ghost use Rattle.std.specs.Prelude.{IfOk};
ghost use Rattle.base_tests.specs.Usage.{IsKeptStore};

use crate::images::{fill, flip, hold};
use crate::plans::{Plan, plan_of};
use crate::usage::{Kept, created, disk_of, opened, rebuilt, stopped, used};
use case_words::{CaseError, cut, number, text};
use disk_model::MemDisk;
use std::alloc::Global;

/// What the words leave, from a disk of empty files on.
pub fn run(alloc: Global, plan: Plan, words: &str) -> Result<Kept, CaseError>
    ensures { IfOk result IsKeptStore }
{
    let mut kept = Kept::Closed(MemDisk::new(alloc));
    for word in words.split(' ') {
        let (next, _answer) = step(alloc, plan, kept, word)?;
        kept = next;
    }
    Ok(kept)
}

/// One word: what it leaves, and what it answers.
pub fn step(alloc: Global, plan: Plan, kept: Kept, word: &str) -> Result<(Kept, String), CaseError>
    requires { IsKeptStore kept }
    ensures { IfOk result (λ next. IsKeptStore next.0) }
{
    let (verb, rest) = cut(word, ':');
    match verb {
        "create" => created(alloc, plan, disk_of(kept), rest),
        "open" => opened(alloc, plan, disk_of(kept)),
        "put" => used(alloc, kept, rest),
        "stop" => cut_off(alloc, kept, rest),
        "restart" => begun_again(alloc, disk_of(kept), rest),
        _ => closed(alloc, plan, disk_of(kept), verb, rest),
    }
}

// `stop:K`: from now on K calls of the disk pass.
fn cut_off(alloc: Global, kept: Kept, word: &str) -> Result<(Kept, String), CaseError>
    requires { IsKeptStore kept }
    ensures { IfOk result (λ next. IsKeptStore next.0) }
{
    let kept = stopped(kept, number(word)?);
    Ok((kept, text(alloc, "ok")?))
}

fn begun_again(alloc: Global, disk: MemDisk, word: &str) -> Result<(Kept, String), CaseError>
    ensures { IfOk result (λ next. IsKeptStore next.0) }
{
    let disk = restarted(disk, word)?;
    Ok((Kept::Closed(disk), text(alloc, "ok")?))
}

// A word on a disk alone.
fn closed(
    alloc: Global,
    plan: Plan,
    mut disk: MemDisk,
    verb: &str,
    rest: &str,
) -> Result<(Kept, String), CaseError>
    ensures { IfOk result (λ next. IsKeptStore next.0) }
{
    let said = apart(alloc, plan, &mut disk, verb, rest)?;
    Ok((Kept::Closed(disk), said))
}

/// `restart:all`, `restart:none`, `restart:PATTERN`: after a power loss that keeps all writes since the last sync,
/// none, or those of the pattern.
pub fn restarted(disk: MemDisk, word: &str) -> Result<MemDisk, CaseError> {
    let disk = match word {
        "all" => disk.crash(true)?,
        "none" => disk.crash(false)?,
        _ => disk.crash_torn(number(word)?)?,
    };
    Ok(disk)
}

// A word that takes the storage out of use.
fn apart(
    alloc: Global,
    plan: Plan,
    disk: &mut MemDisk,
    verb: &str,
    rest: &str,
) -> Result<String, CaseError> {
    match verb {
        "rebuild" => return rebuilt(alloc, plan, disk, rest),
        "hold" => hold(alloc, disk, rest)?,
        "fill" => fill(alloc, disk, rest)?,
        "flip" => flip(disk, rest)?,
        _ => return Err(CaseError::NoCase),
    }
    text(alloc, "ok")
}
