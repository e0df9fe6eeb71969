//! Bytes written straight into the files of a place: texts of indexes, contents, and damage.

ghost use Rattle.std.specs.Prelude.{◌≤◌, IfOk};

use crate::seals::{Sealing, sealing_of};
use case_words::{CaseError, bytes_of, cut, small};
use disk_model::{Disk, DiskFailed, MemDisk};
use hash_guard::seal;
use std::alloc::Global;

/// `COPY:GENERATION:BYTES`: seals a text, and makes it durable in the slot of a copy, counted from 1 in a place that
/// begins at file 0.
pub fn hold(alloc: Global, disk: &mut MemDisk, rest: &str) -> Result<(), CaseError> {
    let (copy, rest) = cut(rest, ':');
    let file = first_file(copy)?;
    let Sealing { generation, body } = sealing_of(alloc, rest, ':')?;
    let sealed = seal(alloc, generation, &body)?;
    let parity = if generation % 2 == 0 { 0 } else { 1 };
    Ok(put_durably(disk, file + parity, &sealed)?)
}

/// `COPY:BYTES`: makes a content durable at the start of the area of a copy.
pub fn fill(alloc: Global, disk: &mut MemDisk, rest: &str) -> Result<(), CaseError> {
    let (copy, bytes) = cut(rest, ':');
    let area = first_file(copy)? + 2;
    let bytes = bytes_of(alloc, bytes)?;
    Ok(put_durably(disk, area, &bytes)?)
}

// The first file of a copy, counted from 1.
fn first_file(copy: &str) -> Result<u32, CaseError>
    ensures { IfOk result (λ file. file ≤ 28) }
{
    let copy = small(copy)?;
    if copy == 0 || copy > 8 {
        return Err(CaseError::NoCase);
    }
    Ok(4 * (copy - 1))
}

/// `FILE`: replaces each of its first bytes, at most 1,024, by its complement, and makes that durable.
pub fn flip(disk: &mut MemDisk, word: &str) -> Result<(), CaseError> {
    Ok(complement(disk, small(word)?, &mut [0; 1024])?)
}

/// Replaces each of the first bytes of a file, as many as there is room for, by its complement, and makes that durable.
pub fn complement(disk: &mut MemDisk, file: u32, room: &mut [u8]) -> Result<(), DiskFailed> {
    let count = disk.read(file, 0, room)?;
    let bytes = &mut room[..count];
    for byte in bytes.iter_mut() {
        *byte = !*byte;
    }
    put_durably(disk, file, bytes)
}

// Writes bytes at the start of a file, and makes that durable.
fn put_durably(disk: &mut MemDisk, file: u32, bytes: &[u8]) -> Result<(), DiskFailed> {
    disk.write_at(file, 0, bytes)?;
    disk.sync()
}
