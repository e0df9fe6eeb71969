//! One session for each call of a flash, at which it stops, or which alone fails.

use crate::planted::{COLD, SCATTERED, crowd, scatter};
use crate::script::{MemDisk, WRITES, cold_pages, expected, play, scattered_pages, write};
use disk_model::Disk;
use flash_disk::FlashDisk;
use flash_model::MemFlash;
use std::alloc::Global;

/// What came of one session.
#[derive(Clone, Copy, PartialEq, Eq)]
enum Outcome {
    /// All is as it should be, and some call was left out.
    Kept,
    /// All is as it should be, and no call was left out.
    Whole,
    Lost,
}

fn what_came(good: bool, whole: bool) -> Outcome {
    if !good {
        return Outcome::Lost;
    }
    if whole { Outcome::Whole } else { Outcome::Kept }
}

/// What is swept.
#[derive(Clone, Copy)]
pub enum Sweep {
    /// The flash stops at a call of the script.
    Stops,
    /// It stops at a call of three writes, the first of which moves a block.
    StopsOfMoves,
    /// It stops at a call of a write for which two blocks are joined.
    StopsOfJoins,
    /// One call of the script fails, and the disk goes on.
    Fails,
    /// One call of three writes fails, the first of which moves a block, and the disk goes on.
    FailsOfMoves,
}

/// Sweeps from a call on up to the first that comes after all: `kept`, where all is as it should be each time.
pub fn swept(alloc: Global, sweep: Sweep, from: u64, to: u64) -> &'static str {
    for call in from..to {
        match tried(alloc, sweep, call) {
            Some(Outcome::Kept) => {}
            Some(Outcome::Whole) => return "kept",
            _ => return "lost",
        }
    }
    "not swept"
}

fn tried(alloc: Global, sweep: Sweep, call: u64) -> Option<Outcome> {
    match sweep {
        Sweep::Stops => stops(alloc, call),
        Sweep::StopsOfMoves => stops_of_moves(alloc, call),
        Sweep::StopsOfJoins => stops_of_joins(alloc, call),
        Sweep::Fails => fails(alloc, call),
        Sweep::FailsOfMoves => fails_of_moves(alloc, call),
    }
}

// Whether each 25th byte of a file is what it was after that many writes of the script, with or without this one.
fn is_with_or_without(disk: &mut MemDisk, file: u32, writes: u32, one: Option<u32>) -> bool {
    let mut bytes = [0; 900];
    if disk.read(file, 0, &mut bytes).is_err() {
        return false;
    }
    for k in 0..36 {
        let at = 25 * k;
        let byte = bytes[at as usize];
        if byte != expected(file, at, writes, None) && byte != expected(file, at, writes, one) {
            return false;
        }
    }
    true
}

fn are_with_or_without(disk: &mut MemDisk, writes: u32, one: Option<u32>) -> bool {
    is_with_or_without(disk, 0, writes, one) && is_with_or_without(disk, 1, writes, one)
}

// The flash stops at this call; it is opened again, each byte is as before or after the write that failed, and the
// writes go on.
fn stops(alloc: Global, call: u64) -> Option<Outcome> {
    let mut flash = MemFlash::new(alloc, 4).ok()?;
    flash.stop_after(call);
    let (mut flash, done) = match FlashDisk::open(alloc, flash) {
        Ok(mut disk) => {
            let done = play(&mut disk);
            (disk.into_flash(), done)
        }
        Err(refused) => (refused.flash, 0),
    };
    flash.restart();
    let mut disk = FlashDisk::open(alloc, flash).ok()?;
    let good = are_with_or_without(&mut disk, done.saturating_add(1), Some(done))
        && disk.write_at(0, 0, &[1]).is_ok();
    Some(what_came(good, done == WRITES))
}

// That many writes of one byte at one place, up to the first that fails.
fn writes_of_a_byte(disk: &mut MemDisk) -> u32 {
    for i in 0..3 {
        if disk.write_at(1, 9, &[i as u8]).is_err() {
            return i;
        }
    }
    3
}

// A flash of four blocks, three of which are crowded.
fn crowded(alloc: Global) -> Option<MemFlash> {
    let mut flash = MemFlash::new(alloc, 4).ok()?;
    if crowd(&mut flash) {
        return Some(flash);
    }
    None
}

// Whether the byte that is written is this one or that, and all needed pages are as they were.
fn is_crowded_with(disk: &mut MemDisk, one: u8, other: u8) -> bool {
    let mut byte = [9; 1];
    if disk.read(1, 9, &mut byte) != Ok(1) {
        return false;
    }
    (byte[0] == one || byte[0] == other) && cold_pages(disk) == 3 * COLD
}

// The byte after that many of the writes were Ok.
fn last_byte(done: u32) -> u8 {
    if done == 0 {
        return 7;
    }
    (done.saturating_sub(1) % 250) as u8
}

fn stops_of_moves(alloc: Global, call: u64) -> Option<Outcome> {
    let mut flash = crowded(alloc)?;
    flash.stop_after(call);
    let (mut flash, done) = match FlashDisk::open(alloc, flash) {
        Ok(mut disk) => {
            let done = writes_of_a_byte(&mut disk);
            (disk.into_flash(), done)
        }
        Err(refused) => (refused.flash, 0),
    };
    flash.restart();
    let mut disk = FlashDisk::open(alloc, flash).ok()?;
    let good = is_crowded_with(&mut disk, last_byte(done), (done % 250) as u8);
    Some(what_came(good, done == 3))
}

// A flash of sixteen blocks, all but one of which have a page each of file 0.
fn scattered(alloc: Global) -> Option<MemFlash> {
    let mut flash = MemFlash::new(alloc, 16).ok()?;
    if scatter(&mut flash) {
        return Some(flash);
    }
    None
}

// A first write of another copy stops at this call; afterwards all pages are as they were, and a write of a third copy
// leaves the copies apart.
fn stops_of_joins(alloc: Global, call: u64) -> Option<Outcome> {
    let mut flash = scattered(alloc)?;
    flash.stop_after(call);
    let (mut flash, done) = match FlashDisk::open(alloc, flash) {
        Ok(mut disk) => {
            let done = disk.write_at(4, 0, &[9]).is_ok();
            (disk.into_flash(), done)
        }
        Err(refused) => (refused.flash, false),
    };
    flash.restart();
    let mut disk = FlashDisk::open(alloc, flash).ok()?;
    let good = disk.write_at(8, 0, &[9]).is_ok()
        && scattered_pages(&mut disk) == SCATTERED
        && disk.keeps_copies_apart();
    Some(what_came(good, done))
}

// Lets one call of a flash fail, counted from now on.
fn plan_one(alloc: Global, flash: &mut MemFlash, call: u64) -> Option<()> {
    let mut plan = Vec::new(alloc);
    plan.push(call).ok()?;
    flash.fail_calls(plan);
    Some(())
}

// Makes all writes of the script. The second number is how many failed, and the first is the last of these.
fn play_on(disk: &mut MemDisk) -> (Option<u32>, u32) {
    let mut failed = None;
    let mut count: u32 = 0;
    for k in 0..WRITES {
        if !write(disk, k) {
            failed = Some(k);
            count = count.saturating_add(1);
        }
    }
    (failed, count)
}

// One call fails; one write fails, all others are Ok, and each byte is as with the one that failed or without it, also
// after the disk was opened again.
fn fails(alloc: Global, call: u64) -> Option<Outcome> {
    let mut flash = MemFlash::new(alloc, 4).ok()?;
    plan_one(alloc, &mut flash, call)?;
    let mut disk = FlashDisk::open(alloc, flash).ok()?;
    let (failed, count) = play_on(&mut disk);
    if count == 0 {
        return Some(Outcome::Whole);
    }
    let good = count == 1
        && are_with_or_without(&mut disk, WRITES, failed)
        && disk.sync().is_ok()
        && disk.own_faults() == 0;
    let mut flash = disk.into_flash();
    let good = good && flash.faults() == 1;
    flash.restart();
    let mut disk = FlashDisk::open(alloc, flash).ok()?;
    let good = good && are_with_or_without(&mut disk, WRITES, failed);
    Some(what_came(good, false))
}

// Makes three writes of one byte, and says which was the last that was Ok, from 1 on, and how many failed.
fn bytes_on(disk: &mut MemDisk) -> (u32, u32) {
    let mut last = 0;
    let mut count: u32 = 0;
    for i in 0..3 {
        if disk.write_at(1, 9, &[i as u8]).is_ok() {
            last = i + 1;
        } else {
            count = count.saturating_add(1);
        }
    }
    (last, count)
}

fn fails_of_moves(alloc: Global, call: u64) -> Option<Outcome> {
    let mut flash = crowded(alloc)?;
    plan_one(alloc, &mut flash, call)?;
    let mut disk = FlashDisk::open(alloc, flash).ok()?;
    let (last, count) = bytes_on(&mut disk);
    if count == 0 {
        return Some(Outcome::Whole);
    }
    let good = count == 1
        && is_crowded_with(&mut disk, last_byte(last), (last % 250) as u8)
        && disk.own_faults() == 0;
    let mut flash = disk.into_flash();
    let good = good && flash.faults() == 1;
    flash.restart();
    let mut disk = FlashDisk::open(alloc, flash).ok()?;
    let good = good && is_crowded_with(&mut disk, last_byte(last), (last % 250) as u8);
    Some(what_came(good, false))
}
