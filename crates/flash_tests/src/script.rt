//! A script of writes over two files, and other writes and reads that repeat.

use crate::planted::{COLD, SCATTERED};
use disk_model::Disk;
use flash_disk::FlashDisk;
use flash_model::MemFlash;

/// The disk of all cases.
pub type MemDisk = FlashDisk<MemFlash>;

/// How many writes the script has. Write k, from 0, goes into file k mod 2, at 100 times k mod 7, with 300 bytes of the
/// value k + 1.
pub const WRITES: u32 = 30;

/// Makes write k of the script.
pub fn write(disk: &mut MemDisk, k: u32) -> bool {
    let bytes = [(k % 250) as u8 + 1; 300];
    disk.write_at(k % 2, 100 * (k % 7) as u64, &bytes).is_ok()
}

/// Makes the writes of the script up to the first that fails, and says how many were Ok.
pub fn play(disk: &mut MemDisk) -> u32 {
    for k in 0..WRITES {
        if !write(disk, k) {
            return k;
        }
    }
    WRITES
}

/// The byte of a file after the first `count` writes of the script but this one.
pub fn expected(file: u32, at: u32, writes: u32, but: Option<u32>) -> u8 {
    let mut byte = 0;
    for k in 0..writes.min(WRITES) {
        let start = 100 * (k % 7);
        if k % 2 == file && Some(k) != but && start <= at && at < start + 300 {
            byte = (k % 250) as u8 + 1;
        }
    }
    byte
}

/// That many writes of one byte, which counts round, at one place of a file, and how many were Ok.
pub fn repeated(disk: &mut MemDisk, times: u32, file: u32, at: u64) -> u32 {
    let mut done: u32 = 0;
    for i in 0..times {
        if disk.write_at(file, at, &[(i % 251) as u8]).is_ok() {
            done = done.saturating_add(1);
        }
    }
    done
}

/// Writes a byte into each of that many pages of a file, and says how many writes were Ok.
pub fn filled(disk: &mut MemDisk, pages: u32, file: u32) -> u32 {
    let mut done: u32 = 0;
    for page in 0..pages {
        if disk.write_at(file, 256 * page as u64, &[1]).is_ok() {
            done = done.saturating_add(1);
        }
    }
    done
}

/// How many of the needed pages of a crowded flash are as they were.
pub fn cold_pages(disk: &mut MemDisk) -> u32 {
    let mut same: u32 = 0;
    for page in 0..3 * COLD {
        if is_page_of(disk, page) {
            same = same.saturating_add(1);
        }
    }
    same
}

fn is_page_of(disk: &mut MemDisk, page: u32) -> bool {
    let mut bytes = [0; 256];
    disk.read(2, 256 * page as u64, &mut bytes) == Ok(256)
        && bytes.iter().all(|byte| *byte as u32 == page)
}

/// How many of the pages of a scattered flash are as they were.
pub fn scattered_pages(disk: &mut MemDisk) -> u32 {
    let mut same: u32 = 0;
    for page in 0..SCATTERED {
        if is_scattered_page(disk, page) {
            same = same.saturating_add(1);
        }
    }
    same
}

fn is_scattered_page(disk: &mut MemDisk, page: u32) -> bool {
    let kept = (page % 250) as u8 + 1;
    let mut bytes = [0; 256];
    disk.read(0, 256 * page as u64, &mut bytes) == Ok(256) && bytes.iter().all(|byte| *byte == kept)
}
