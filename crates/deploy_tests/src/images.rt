//! Damage, and texts written straight into files.

ghost use Rattle.std.specs.Prelude.{◌≤◌, IfOk};

use crate::faults::Fault;
use case_words::{bytes_of, cut, number, small};
use disk_model::{Disk, MemDisk, Place};
use guarded_cell::look;
use hash_guard::{MAX_BODY, seal};
use std::alloc::{AllocError, Global};

/// `FILE,..`: replaces each of the first bytes of these files, at most 1,024 of each, by its complement, and makes that
/// durable.
pub fn flip(alloc: Global, disk: &mut MemDisk, files: &str) -> Result<(), Fault> {
    for file in files.split(',') {
        complement(alloc, disk, small(file)?)?;
    }
    disk.sync()?;
    Ok(())
}

fn complement(alloc: Global, disk: &mut MemDisk, file: u32) -> Result<(), Fault> {
    let mut room = [0; 1024];
    let count = disk.read(file, 0, &mut room)?;
    let complements = complements(alloc, &room[..count])?;
    disk.write_at(file, 0, &complements)?;
    Ok(())
}

fn complements(alloc: Global, bytes: &[u8]) -> Result<Vec<u8>, AllocError> {
    let mut complements = Vec::new(alloc);
    for byte in bytes {
        complements.push(!*byte)?;
    }
    Ok(complements)
}

/// `FILE:AT:BYTE`: sets one byte, and makes that durable.
pub fn spoil(disk: &mut MemDisk, rest: &str) -> Result<(), Fault> {
    let (file, rest) = cut(rest, ':');
    let (at, byte) = cut(rest, ':');
    let Ok(byte) = byte.parse::<u8>() else {
        return Err(Fault::CaseError);
    };
    disk.write_at(small(file)?, number(at)?, &[byte])?;
    disk.sync()?;
    Ok(())
}

/// `FILE:GENERATION:BYTES`: makes a sealed text durable in a file.
pub fn hold(alloc: Global, disk: &mut MemDisk, rest: &str) -> Result<(), Fault> {
    let (file, rest) = cut(rest, ':');
    let (generation, text) = cut(rest, ':');
    let text = bytes_of(alloc, text)?;
    let sealed = sealed(alloc, number(generation)?, &text)?;
    disk.write_at(small(file)?, 0, &sealed)?;
    disk.sync()?;
    Ok(())
}

// A text under a generation, where it can have one.
fn sealed(alloc: Global, generation: u64, text: &[u8]) -> Result<Vec<u8>, Fault> {
    if generation == 0 || text.len() > MAX_BODY {
        return Err(Fault::CaseError);
    }
    Ok(seal(alloc, generation, text)?)
}

/// `FIRST:COPIES`: makes the newest text of a register durable in each of its copies, under the greatest generation.
pub fn wear(alloc: Global, disk: &mut MemDisk, rest: &str) -> Result<(), Fault> {
    let (first, copies) = cut(rest, ':');
    let place = place_of(small(first)?, small(copies)?)?;
    let looked = look(alloc, disk, place)?;
    let Some(seen) = looked.seens.first() else {
        return Err(Fault::CaseError);
    };
    let sealed = sealed(alloc, u64::MAX, seen.text.as_slice())?;
    for copy in 0..place.copies {
        disk.write_at(place.slot(copy, 1), 0, &sealed)?;
    }
    disk.sync()?;
    Ok(())
}

// That many copies from a file on.
fn place_of(first: u32, copies: u32) -> Result<Place, Fault>
    ensures { IfOk result (λ place. (place.first ≤ 32768) × (place.copies ≤ 8)) }
{
    if first > 32_768 || copies == 0 || copies > 8 {
        return Err(Fault::CaseError);
    }
    Ok(Place { first, copies })
}
