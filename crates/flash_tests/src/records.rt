//! The pages of records.

use crate::step::Step;
use crate::texts::runs;
use flash_model::{BLANK_PAGE, PAGE_BYTES};
use flash_record::{Record, read_record, record_page};
use sha2::{Digest, Sha256};
use std::alloc::{AllocError, Global};

/// The page of the record of a step: its number, its file, its page, the file's length, and its first, its inner and
/// its last byte.
fn page_in(step: &Step<'_>) -> [u8; PAGE_BYTES] {
    let mut bytes = [step.byte(5); 256];
    bytes[0] = step.byte(4);
    bytes[255] = step.byte(6);
    record_page(
        step.number(0).max(1),
        step.small(1),
        step.small(2),
        step.number(3),
        &bytes,
    )
}

/// The bytes of a record's page after its hash.
pub fn behind_hash(alloc: Global, step: &Step<'_>) -> Result<String, AllocError> {
    let page = page_in(step);
    runs(alloc, &page[32..])
}

/// Whether a record's page begins with the hash of the rest of its text.
pub fn has_its_hash(step: &Step<'_>) -> bool {
    let page = page_in(step);
    &page[..32] == Sha256::digest(&page[32..316]).as_slice()
}

/// What a record's page says after one of its bytes was set: in the place of the step's eighth number, to its ninth.
pub fn says_changed(alloc: Global, step: &Step<'_>) -> Result<String, AllocError> {
    let mut page = page_in(step);
    let place = step.small(7) as usize % PAGE_BYTES;
    page[place] = step.byte(8);
    said(alloc, &page)
}

/// What a page says whose bytes are all this one.
pub fn says_uniform(alloc: Global, byte: u8) -> Result<String, AllocError> {
    said(alloc, &[byte; PAGE_BYTES])
}

/// What a blank page says.
pub fn says_blank(alloc: Global) -> Result<String, AllocError> {
    said(alloc, &BLANK_PAGE)
}

fn said(alloc: Global, page: &[u8]) -> Result<String, AllocError> {
    match read_record(page) {
        Some(record) => text_of(alloc, record),
        None => String::from_str(alloc, "no record"),
    }
}

fn text_of(alloc: Global, record: Record<'_>) -> Result<String, AllocError> {
    let sequence = record.sequence;
    let file = record.file;
    let page = record.page;
    let len = record.len;
    let bytes = runs(alloc, record.bytes)?;
    format!(in alloc; "{sequence} {file} {page} {len} {bytes}")
}
