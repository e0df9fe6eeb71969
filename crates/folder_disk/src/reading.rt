//! Whole reads, made of the system's reads, which may be short.

ghost use Rattle.std.specs.Prelude.{◌≡◌, ℕ, ◌≤◌, ◌<◌, ◌+◌, ◌-◌, ◌^◌, IsTrue, IfOk, length, take, drop, min};
ghost use Rattle.std.specs.Prelude.{slice_index};
ghost use Rattle.system_model.specs.SystemMedium.{Looks, IsWhole, GivesBytes, GivesNone, ReadGives, read_count};

use crate::opened::Opened;
use std::io;
use system_model::{Reading, System};

/// Reads as many bytes as there are, and at most as many as there is room for.
pub(crate) fn read_all<S: System>(
    system: &mut Opened<S>,
    file: u32,
    at: u64,
    out: &mut [u8],
) -> io::Result<usize>
    requires { at + length out.old < 2 ^ 64 }
    ensures count { IfOk result (λ n. n ≤ length out.old) }
    ensures bytes { IsTrue S.told → IsWhole (S.medium system.old) file → IfOk result (λ n.
        (n ≡ min (length out.old) (length ((S.medium system.old).disk.image file) - at))
        × (take n out.new ≡ take n (drop at ((S.medium system.old).disk.image file)))) }
    ensures looks { Looks (S.medium system.old) (S.medium system.new) }
{
    let mut count = 0;
    while count < out.len() {
        match read_some(system, file, at + count as u64, &mut out[count..]) {
            Ok(0) => break,
            Ok(more) => count += more,
            Err(error) => return Err(error),
        }
    }
    Ok(count)
}

/// Reads some of the bytes, and none only at the end of the file or where there is no room.
fn read_some<S: System>(
    system: &mut Opened<S>,
    file: u32,
    at: u64,
    out: &mut [u8],
) -> io::Result<usize>
    ensures count { IfOk result (λ n. n ≤ length out.old) }
    ensures bytes { IsTrue S.told → IsWhole (S.medium system.old) file → IfOk result (λ n.
        GivesBytes ((S.medium system.old).disk.image file) at (length out.old) out.new n) }
    ensures looks { Looks (S.medium system.old) (S.medium system.new) }
{
    match read_again(system, file, at, out)? {
        Reading::Bytes(count) => Ok(count),
        Reading::Unreadable(count) => read_zeros(system, file, at, out, count),
    }
}

/// Answers bytes that cannot be read as zeros, as far as the file has them.
fn read_zeros<S: System>(
    system: &mut Opened<S>,
    file: u32,
    at: u64,
    out: &mut [u8],
    unreadable: usize,
) -> io::Result<usize>
    ensures count { IfOk result (λ n. n ≤ length out.old) }
    ensures bytes { IsTrue S.told → GivesNone ((S.medium system.old).disk.image file) at unreadable
        → IfOk result (λ n. GivesBytes ((S.medium system.old).disk.image file) at (length out.old) out.new n) }
    ensures looks { Looks (S.medium system.old) (S.medium system.new) }
{
    let size = system.length(file)?;
    let there = size.saturating_sub(at).min(out.len() as u64) as usize;
    let count = there.min(unreadable);
    blank(out, count);
    Ok(count)
}

/// Writes zeros over the first bytes.
fn blank(out: &mut [u8], count: usize)
    requires { count ≤ length out.old }
    ensures { (j : ℕ) → j < count → slice_index out.new j ≡ 0 }
{
    for place in 0..count {
        out[place] = 0;
    }
}

/// Reads, and once more where the system was interrupted, or where it could not read the place.
fn read_again<S: System>(
    system: &mut Opened<S>,
    file: u32,
    at: u64,
    out: &mut [u8],
) -> io::Result<Reading>
    ensures count { IfOk result (λ reading. read_count reading ≤ length out.old) }
    ensures gives { IsTrue S.told → IsWhole (S.medium system.old) file → IfOk result (λ reading.
        ReadGives ((S.medium system.old).disk.image file) at (length out.old) out.new reading) }
    ensures looks { Looks (S.medium system.old) (S.medium system.new) }
{
    match system.read(file, at, out) {
        Err(error) if is_interrupted(error) => system.read(file, at, out),
        Ok(Reading::Unreadable(_)) => system.read(file, at, out),
        answer => answer,
    }
}

/// How many places of a file are tried at most.
const PLACES: u32 = 32;

/// What a file answers that is to be read.
#[derive(Clone, Copy)]
pub(crate) enum Answer {
    /// It has no bytes, or the system did not come so far.
    Unknown,
    Readable,
    Unreadable,
}

/// Whether a byte of the file can be read: its first one or, each time twice as far, one after those that cannot.
pub(crate) fn answer_of<S: System>(system: &mut Opened<S>, file: u32) -> Answer
    ensures { Looks (S.medium system.old) (S.medium system.new) }
{
    let mut byte = [0; 1];
    let mut answer = Answer::Unknown;
    let mut at: u64 = 0;
    for _ in 0..PLACES {
        match read_again(system, file, at, &mut byte) {
            Ok(Reading::Bytes(0)) | Err(_) => break,
            Ok(Reading::Bytes(_)) => return Answer::Readable,
            Ok(Reading::Unreadable(count)) => {
                answer = Answer::Unreadable;
                at = at.saturating_add(count as u64).saturating_mul(2);
            }
        }
    }
    answer
}

/// Whether the system was interrupted before it did anything.
pub(crate) fn is_interrupted(error: io::Error) -> bool {
    matches!(error.kind(), io::ErrorKind::Interrupted)
}
