//! Records that no disk wrote.

ghost use Rattle.std.specs.Prelude.{◌≡◌, IsTrue};
ghost use Rattle.flash_model.specs.Pages.{blank_page};

use flash_model::{BLANK_PAGE, Flash, MemFlash, PAGE_BYTES};
use flash_record::record_page;

/// A record: page `page` of a file of `len` bytes, each of them this byte.
#[derive(Clone, Copy)]
pub struct Planted {
    pub block: u32,
    pub at: u32,
    pub sequence: u64,
    pub file: u32,
    pub page: u32,
    pub len: u64,
    pub byte: u8,
}

/// The bytes of a page, where the flash has it and it can be read.
pub fn page_of(flash: &mut MemFlash, block: u32, page: u32) -> Option<[u8; PAGE_BYTES]> {
    if block >= flash.blocks() || page >= 64 {
        return None;
    }
    let mut out = [0; PAGE_BYTES];
    match flash.read(block, page, &mut out) {
        Ok(()) => Some(out),
        Err(_) => None,
    }
}

/// Erases a block, if the flash has it.
pub fn erase(flash: &mut MemFlash, block: u32) -> bool {
    block < flash.blocks() && flash.erase(block).is_ok()
}

/// Programs a page; `false` where the flash has none that is blank.
pub fn plant(flash: &mut MemFlash, block: u32, page: u32, bytes: &[u8; PAGE_BYTES]) -> bool {
    let mut found = [0; PAGE_BYTES];
    if block >= flash.blocks() || page >= 64 {
        return false;
    }
    if flash.read(block, page, &mut found).is_err() || !is_blank(&found) {
        return false;
    }
    flash.program(block, page, bytes).is_ok()
}

// Whether a page is blank.
#[tactic(auto, unfolding(flash_model::specs::Pages::blank_page))]
fn is_blank(page: &[u8]) -> bool
    ensures { IsTrue result → page.now ≡ blank_page }
{
    page == [0xff; 512].as_slice()
}

/// Programs a page with the first that many bytes of a record, and leaves the others blank.
pub fn plant_part(flash: &mut MemFlash, record: Planted, count: usize) -> bool {
    let whole = record_page(
        record.sequence.max(1),
        record.file,
        record.page,
        record.len,
        &[record.byte; 256],
    );
    plant(flash, record.block, record.at, &part_of(&whole, count))
}

// The first that many bytes of a page, and the others blank.
fn part_of(whole: &[u8; PAGE_BYTES], count: usize) -> [u8; PAGE_BYTES] {
    let mut page = BLANK_PAGE;
    for i in 0..count.min(PAGE_BYTES) {
        page[i] = whole[i];
    }
    page
}

/// Programs every page of a flash with a record of another page of file 1.
pub fn plant_everywhere(flash: &mut MemFlash) -> bool {
    let mut number = 0;
    for block in 0..flash.blocks() {
        for at in 0..64 {
            let record = Planted {
                block,
                at,
                sequence: 1,
                file: 1,
                page: number,
                len: 131_072,
                byte: 1,
            };
            if !plant_part(flash, record, PAGE_BYTES) {
                return false;
            }
            number = number.saturating_add(1);
        }
    }
    true
}

/// How many pages of file 2 are in each of the first three blocks of a crowded flash.
pub const COLD: u32 = 42;

/// Fills three blocks of a flash. Each has 42 pages of file 2, which are needed; its other records are of page 0 of
/// file 1, and only the last of these is needed.
pub fn crowd(flash: &mut MemFlash) -> bool {
    for block in 0..3 {
        for at in 0..64 {
            if !plant_part(flash, crowding(block, at), PAGE_BYTES) {
                return false;
            }
        }
    }
    true
}

// The record in a place of a crowded flash.
fn crowding(block: u32, at: u32) -> Planted {
    let sequence = 64 * block as u64 + at as u64 + 1;
    if at < COLD {
        let page = (COLD * block.min(2)).saturating_add(at);
        return Planted {
            block,
            at,
            sequence,
            file: 2,
            page,
            len: 32_256,
            byte: (page % 256) as u8,
        };
    }
    Planted {
        block,
        at,
        sequence,
        file: 1,
        page: 0,
        len: 256,
        byte: 7,
    }
}

/// How many blocks of a scattered flash have a page each of file 0.
pub const SCATTERED: u32 = 15;

/// Programs the first page of each of the first fifteen blocks of a flash with a page of file 0: page k, of the byte
/// k + 1, in block k.
pub fn scatter(flash: &mut MemFlash) -> bool {
    for block in 0..SCATTERED {
        let record = Planted {
            block,
            at: 0,
            sequence: block as u64 + 1,
            file: 0,
            page: block,
            len: 3840,
            byte: (block % 250) as u8 + 1,
        };
        if !plant_part(flash, record, PAGE_BYTES) {
            return false;
        }
    }
    true
}
